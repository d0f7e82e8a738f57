// The texts of datasets, of their values and of change lists: `q.KIND`, `v.KIND`, `wdelay`, `due`, `wdelay30`, `due30`, `ts.parts`, `ops`, and a security policy
// in a named form.
mod lists;
mod masks;
mod policies;
mod queries;
mod times;
mod typed;

use crate::requests::Values;
use crate::texts::Room;

// Puts the answer to a request, or nothing where it is for none of these calls.
pub(crate) fn answer(request: &Room, v: Values, text: &mut Room, at: usize) -> usize {
    queries::query_texts(request, v, text, at)
}
