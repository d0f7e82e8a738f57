// The modules that know calls, by topic: the first that knows a request answers it. In a module, a group of calls that does not know it asks the next one.
//
// To add a call: where its answer is what it writes into an output whose size is its last word, one `if` in its topic's group of
// `..._calls` of `edit_texts`; where its answer is a text of its own, one in its topic's module of `..._texts`. A new group is
// asked by the last one. Such a function needs no proof file unless it has a loop. `write_texts` reads the words of its line itself, which are a record's
// fields. A request that no group knows is a bad request.
use crate::requests::{Values, read};
use crate::rooms::Lent;
use crate::texts::Room;
use crate::{
    built_texts, dataset_texts, diag_texts, edit_texts, entry_texts, index_texts, network_texts,
    value_texts, write_texts,
};

// A longer line is no request.
pub(crate) const LONGEST_LINE: usize = 600000;

// Calls on diagnostic payloads and their values: the place after the text, or `at` where the request is for none of them.
fn diagnostic_texts(request: &Room, v: Values, text: &mut Room, at: usize) -> usize {
    let value = value_texts::answer(request, v, text, at);
    if value != at {
        return value;
    }
    let network = network_texts::answer(request, v, text, at);
    if network != at {
        return network;
    }
    diag_texts::answer(request, v, text, at)
}

// Calls that put a text of their own.
fn text_calls(request: &Room, v: Values, text: &mut Room, at: usize) -> usize {
    let entry = entry_texts::answer(request, v, text, at);
    if entry != at {
        return entry;
    }
    let index = index_texts::answer(request, v, text, at);
    if index != at {
        return index;
    }
    let dataset = dataset_texts::answer(request, v, text, at);
    if dataset != at {
        return dataset;
    }
    let built = built_texts::answer(request, v, text, at);
    if built != at {
        return built;
    }
    diagnostic_texts(request, v, text, at)
}

// Puts the answer to a line, or nothing where it is no request that is known.
pub(crate) fn put_call(
    line: &[u8],
    arena: &mut Room,
    out: &mut Lent,
    text: &mut Room,
    at: usize,
) -> usize {
    if line.len() > LONGEST_LINE {
        return at;
    }
    let v = read(line, arena);
    let end = text_calls(arena, v, text, at);
    if end != at {
        return end;
    }
    let edit = edit_texts::answer(arena, v, out, text, at);
    if edit != at {
        return edit;
    }
    write_texts::answer(line, arena, v, out, text, at)
}
