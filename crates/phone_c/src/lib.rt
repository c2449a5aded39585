// The static library of the phone program: what `phone` gives, under the same contracts, as functions that C calls. A slice crosses as a pointer and then
// a length. A function of a library is exported by no name, so each has one here.
#![tactic(auto)]

ghost use Rattle.std.specs.Prelude.{◌≡◌};
ghost use Rattle.wire.specs.Format.{verdict};
ghost use Rattle.transaction.specs.Family.{check};
ghost use Rattle.transaction.specs.Avm.{avm};
ghost use Rattle.transaction.specs.Answer.{memo_most};
ghost use Rattle.draft.specs.Reader.{reader};
ghost use Rattle.draft.specs.Calls.{merge_call};
ghost use Rattle.phone.specs.Packed.{packed, packed_call};

#[unsafe(no_mangle)]
pub extern "C" fn cellfacet_check(bytes: &[u8]) -> u64
    ensures { result ≡ packed (verdict (check (avm memo_most) bytes.now)) }
{
    phone::cellfacet_check(bytes)
}

#[unsafe(no_mangle)]
pub extern "C" fn cellfacet_merge(first: &[u8], second: &[u8], out: &mut [u8]) -> u64
    ensures { (result, out.new) ≡ packed_call (merge_call (reader (avm memo_most)) first.now second.now out.old) }
{
    phone::cellfacet_merge(first, second, out)
}
