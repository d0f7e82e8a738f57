// Bytes put into a lent output.
#![tactic(auto)]

ghost use Rattle.std.specs.Prelude.{◌≡◌};
ghost use Rattle.refusal.specs.Output.{placing, placed};

// All of bytes into out from at on, and the place after them; or nothing, and at, where they have no room.
#[tactic(auto, using(laws::proofs::Puts::put_next, laws::proofs::Emits::placed_not))]
pub fn put_bytes(bytes: &[u8], out: &mut [u8], at: usize) -> usize
    ensures { placing result out.new ≡ placed bytes.now at out.old }
{
    if at > out.len() || bytes.len() > out.len() - at {
        return at;
    }
    // a loop: copy_from_slice would have the archive for C need memmove from outside
    for (i, b) in bytes.iter().enumerate() {
        out[at + i] = *b;
    }
    at + bytes.len()
}
