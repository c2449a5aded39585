// The static library of the tests: what `test_exports` gives, under the same contracts, as functions that C calls.
#![tactic(auto)]

ghost use Rattle.std.specs.Prelude.{◌≡◌};
ghost use Rattle.entry_table.specs.Table.{tabled};
ghost use Rattle.entry.specs.Entry.{entry_of};
ghost use Rattle.transaction.specs.Avm.{avm};
ghost use Rattle.transaction.specs.Answer.{memo_most};
ghost use Rattle.draft.specs.Reader.{reader};
ghost use Rattle.draft.specs.Calls.{fill_call};
ghost use Rattle.test_exports.specs.code.Encoded.{exported_table, encoded_table, encoded_fill};
ghost use Rattle.test_exports.specs.code.Values.{exported_entry, encoded_entry};

mod steps;

#[unsafe(no_mangle)]
pub extern "C" fn cellfacet_test_table(bytes: &[u8], table: &mut [u32]) -> u64
    ensures { exported_table result table.new ≡ encoded_table (tabled memo_most bytes.now table.old) }
{
    test_exports::cellfacet_test_table(bytes, table)
}

#[unsafe(no_mangle)]
pub extern "C" fn cellfacet_test_entry(
    bytes: &[u8],
    n: u64,
    numbers: &mut [u64],
    asset: &mut [u8],
    txid: &mut [u8],
)
    ensures { exported_entry numbers.new asset.new txid.new ≡ encoded_entry (entry_of memo_most bytes.now n)
        numbers.old asset.old txid.old }
{
    test_exports::cellfacet_test_entry(bytes, n, numbers, asset, txid)
}

#[unsafe(no_mangle)]
pub extern "C" fn cellfacet_test_fill(
    draft: &mut [u8],
    slot: u64,
    signature: &[u8],
    answer: &mut [u64; 2],
)
    ensures { (answer.new, draft.new) ≡ encoded_fill
        (fill_call (reader (avm memo_most)) draft.old slot signature.now) }
{
    test_exports::cellfacet_test_fill(draft, slot, signature, answer)
}
