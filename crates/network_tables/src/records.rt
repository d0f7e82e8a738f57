// Records of a kind, in order: a cursor comes by them.
ghost use Rattle.std.specs.Prelude.{◌≡◌, ◌<◌, ◌≤◌, ℕ, List, length};
ghost use Rattle.tables.specs.Tab.{tab, steps};

pub(crate) trait Record: Copy {
    type Cursor: Copy;

    // The cursor on the first record of a value, whether a record stands at one, that record, and the cursor on the next.
    ghost start: { List ℕ → Self.Cursor };

    ghost here: { List ℕ → Self.Cursor → Type 0 };

    ghost read: { List ℕ → Self.Cursor → Self };

    ghost after: { List ℕ → Self.Cursor → Self.Cursor };

    fn first(s: &[u8]) -> Self::Cursor
        ensures { result ≡ start s.now };

    fn record(s: &[u8], c: Self::Cursor) -> Self
        requires { here s.now c }
        ensures { result ≡ read s.now c };

    fn next(s: &[u8], c: Self::Cursor) -> Self::Cursor
        requires { here s.now c }
        ensures { result ≡ after s.now c };
}

// The record of a number, from 0 on.
pub(crate) fn numbered<T: Record>(s: &[u8], i: usize) -> T
    requires { (k : ℕ) → k ≤ i → T.here s.now (steps (T.after s.now) k (T.start s.now)) }
    ensures { result ≡ T.read s.now (steps (T.after s.now) i (T.start s.now)) }
{
    let mut c = T::first(s);
    for _ in 0..i {
        c = T::next(s, c);
    }
    T::record(s, c)
}

// A table of the first records.
pub(crate) fn fill<T: Record>(table: &mut [T], s: &[u8])
    requires { (i : ℕ) → i < length table.old → T.here s.now (steps (T.after s.now) i (T.start s.now)) }
    ensures { table.new ≡ tab (λ i. T.read s.now (steps (T.after s.now) i (T.start s.now))) (length table.old) }
{
    let mut c = T::first(s);
    for row in table {
        *row = T::record(s, c);
        c = T::next(s, c);
    }
}
