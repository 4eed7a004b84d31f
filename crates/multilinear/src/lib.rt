//! Tables of 2^n values as multilinear functions: weights, evaluation, folds and rows, over any field.
//!
//! A list of draws stands for a point of a table (`Point`) by its variable order: under `Prefix` as it is, under `Suffix` reversed.
#![tactic(auto)]

ghost use Rattle.multilinear.specs.Embedding.{EmbeddingKeepsTables};
ghost use Rattle.multilinear.specs.Laws.{CornersAreDigits, Interpolation, FoldKeepsValue, RowTellsPosition, SelectIsPower, DifferentTablesAgreeRarely};

use field::{ExtensionField, Field};

pub mod evaluation;
pub mod order;
pub mod point;
pub mod powers;
pub mod weight;

// The laws of tables, of which all that is built on them makes use.
pub fn table_laws_stand<F: Field>()
    ensures corners { CornersAreDigits F.Field.ops }
    ensures interpolation { Interpolation F.Field.ops }
    ensures folds { FoldKeepsValue F.Field.ops }
    ensures rows { RowTellsPosition F.Field.ops }
    ensures powers { SelectIsPower F.Field.ops }
    ensures distance { DifferentTablesAgreeRarely F.Field.ops }
{}

// Base elements may be embedded before or after a table is worked on.
pub fn embedding_keeps_tables<F: Field, E: ExtensionField<F>>()
    ensures { EmbeddingKeepsTables F.Field.ops E.Field.ops E.ExtensionField.extension.embed }
{}
