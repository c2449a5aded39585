// Byte strings compared many bytes at a time, and what slots hold.
ghost use Rattle.std.specs.Prelude.{◌≡◌, length};
ghost use Rattle.transaction.specs.Slots.{blank, slot_at};
ghost use Rattle.draft_slots.specs.Joining.{same, clashes};

const BLOCK: usize = 64;

// Compares without an early exit and by one index, so that the compiler can compare many bytes at once.
fn same_block(a: &[u8], b: &[u8]) -> bool
    requires { length a.now ≡ length b.now }
    ensures { result ≡ same a.now b.now }
{
    let mut all = true;
    for i in 0..a.len() {
        all &= a[i] == b[i];
    }
    all
}

// Are two byte strings equal? Compares block by block, each of one known length, up to the first that differs, and then the rest.
pub fn same_bytes(a: &[u8], b: &[u8]) -> bool
    ensures { result ≡ same a.now b.now }
{
    if a.len() != b.len() {
        return false;
    }
    let (a_blocks, b_blocks) = (a.chunks_exact(BLOCK), b.chunks_exact(BLOCK));
    let (a_rest, b_rest) = (a_blocks.remainder(), b_blocks.remainder());
    for (x, y) in a_blocks.zip(b_blocks) {
        if !same_block(x, y) {
            return false;
        }
    }
    same_block(a_rest, b_rest)
}

// The 65 bytes of the slot that starts at `at`, or as many of them as `s` has.
pub fn slot_of(s: &[u8], at: usize) -> &[u8]
    ensures { result.now ≡ slot_at s.now at }
{
    let rest = s.get(at..).unwrap_or(&[]);
    &rest[..rest.len().min(transaction::SIGNATURE_WIDTH)]
}

// Is `s` the content of an empty slot, 65 zero bytes? Inlined, since a merge asks it of every slot up to three times.
#[inline(always)]
pub fn is_blank(s: &[u8]) -> bool
    ensures { result ≡ same s.now blank }
{
    // A variable: LLVM compares with a constant's bytes by more instructions.
    let zeros = [0; transaction::SIGNATURE_WIDTH];
    s.len() == transaction::SIGNATURE_WIDTH && same_block(s, &zeros)
}

// Do two slots hold different signatures?
pub fn clash(a: &[u8], b: &[u8]) -> bool
    ensures { result ≡ clashes a.now b.now }
{
    !is_blank(a) && !is_blank(b) && !same_bytes(a, b)
}
