// The operations of a list, one after the other: the walk that most callers take.
ghost use Rattle.std.specs.Prelude.{◌≡◌};
ghost use Rattle.std.specs.Iterator.{YieldsFirstBy, item_count};
ghost use Rattle.change_lists.specs.Operations.{ops_of};
ghost use Rattle.change_lists.specs.Walk.{as_op, left};

use crate::{OpFrame, operation_at};

// An operation where it lies: the place of its mark, its type, and the value of a set.
#[derive(Clone, Copy)]
pub enum Operation<'a> {
    Set {
        place: usize,
        ty: u8,
        value: &'a [u8],
    },
    Remove {
        place: usize,
        ty: u8,
    },
}

// A walk over operations, at a place of a list.
#[derive(Clone, Copy)]
pub struct OperationIter<'a> {
    list: &'a [u8],
    at: usize,
}

// It ends with the list, or before an operation that is cut short or has an unknown mark: `count_operations` tells which.
impl<'a> Iterator for OperationIter<'a> {
    type Item = Operation<'a>;

    ghost next_gives = { YieldsFirstBy as_op left };

    ghost remaining = { item_count left };

    fn next(&mut self) -> Option<Operation<'a>> {
        let place = self.at;
        match operation_at(self.list, place) {
            OpFrame::Set { ty, start, len } => {
                self.at = start + len;
                Some(Operation::Set {
                    place,
                    ty,
                    value: &self.list[start..start + len],
                })
            }
            OpFrame::Remove { ty } => {
                self.at = place + 3;
                Some(Operation::Remove { place, ty })
            }
            _ => None,
        }
    }
}

// The operations of a list.
pub fn operations<'a>(list: &'a [u8]) -> OperationIter<'a>
    ensures { left result ≡ (ops_of list.now).ops }
{
    OperationIter { list, at: 0 }
}
