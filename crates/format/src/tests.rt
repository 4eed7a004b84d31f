// Items and parts of a caller's own, read by lines like the format's.
ghost use Rattle.format.specs.Reading.{found, then, plain, next_number};
ghost use Rattle.format.specs.declared.tests.Mark.{Mark};

use crate::cursor::Cursor;
use crate::errors::Fault;
use crate::keys::Key;
use crate::lines::{Item, Part};

#[derive(Clone, Copy, PartialEq, Eq, Debug)]
struct Mark {
    points: usize,
}

impl Item for Mark {
    ghost item = { λ _ bs. then (next_number bs) (λ points rest. found (record { points = points }) rest) };

    #[tactic(auto, unfolding(crate::specs::Reading::then))]
    fn read_at(cursor: &mut Cursor, _index: usize) -> Result<Mark, Fault> {
        let points = cursor.next_number()?;
        Ok(Mark { points })
    }
}

impl Part for Mark {
    ghost Shown = { Mark };

    ghost shown = { plain };

    ghost reading = { λ bs. then (next_number bs) (λ points rest. found (record { points = points }) rest) };

    #[tactic(auto, unfolding(crate::specs::Reading::then))]
    fn read(cursor: &mut Cursor) -> Result<Mark, Fault> {
        let points = cursor.next_number()?;
        Ok(Mark { points })
    }
}

// A cursor with the global allocator reads lines and lists of them.
#[test]
fn lines_of_marks(rt: HostRuntime) -> Result<(), Fault> {
    let mut cursor = Cursor {
        heap: rt.alloc(),
        rest: b"degree 7\nrounds 2 8 9\nrest",
    };
    let mark: Mark = cursor.line(Key::Degree)?;
    let marks: Vec<Mark> = cursor.line(Key::Rounds)?;
    assert_eq!(rt; mark, Mark { points: 7 });
    let expected = [Mark { points: 8 }, Mark { points: 9 }];
    assert_eq!(rt; marks.as_slice(), expected.as_slice());
    assert_eq!(rt; cursor.rest, b"rest".as_slice());
    Ok(())
}

// The format's own parts and items are read so too, and a number also by a cursor without an allocator.
#[test]
fn lines_of_numbers(rt: HostRuntime) -> Result<(), Fault> {
    let mut cursor = Cursor {
        heap: rt.alloc(),
        rest: b"degree 7\n 8 9",
    };
    let degree: usize = cursor.line(Key::Degree)?;
    let numbers: Vec<usize> = cursor.items(2)?;
    assert_eq!(rt; degree, 7);
    assert_eq!(rt; numbers.as_slice(), [8, 9].as_slice());
    let mut bare = Cursor {
        heap: (),
        rest: b"degree 7\n",
    };
    let degree: usize = bare.line_with(Key::Degree)?;
    assert_eq!(rt; degree, 7);
    Ok(())
}
