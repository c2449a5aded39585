// The writer's steps.
ghost use Rattle.std.specs.Prelude.{◌≡◌};
ghost use Rattle.transaction.specs.Avm.{avm};
ghost use Rattle.transaction.specs.Answer.{memo_most};
ghost use Rattle.writer.specs.Fields.{add_output, add_input, add_operation, add_initial_state, put_memo, put_name, put_symbol, put_denomination, put_chain};
ghost use Rattle.writer.specs.Steps.{fresh, start, close, finish};
ghost use Rattle.test_exports.specs.code.Turns.{writer_of, numbers_of, exported_turn, encoded_turn};

use test_exports::steps;

#[unsafe(no_mangle)]
pub extern "C" fn cellfacet_test_fresh(numbers: &mut [u64; 8])
    ensures { numbers.new ≡ numbers_of fresh 0 0 }
{
    steps::cellfacet_test_fresh(numbers)
}

#[unsafe(no_mangle)]
pub extern "C" fn cellfacet_test_start(
    numbers: &mut [u64; 8],
    buf: &mut [u8],
    type_id: u32,
    network: u32,
    chain: &[u8; 32],
)
    ensures { exported_turn numbers.new buf.new
        ≡ encoded_turn (start (avm memo_most) (writer_of numbers.old) buf.old type_id network chain.now) }
{
    steps::cellfacet_test_start(numbers, buf, type_id, network, chain)
}

#[unsafe(no_mangle)]
pub extern "C" fn cellfacet_test_output(
    numbers: &mut [u64; 8],
    buf: &mut [u8],
    asset: &[u8; 32],
    amount: u64,
    locktime: u64,
    threshold: u32,
    addresses: &[u8],
)
    ensures { exported_turn numbers.new buf.new
        ≡ encoded_turn (add_output memo_most (writer_of numbers.old) buf.old
        asset.now amount locktime threshold addresses.now) }
{
    steps::cellfacet_test_output(numbers, buf, asset, amount, locktime, threshold, addresses)
}

#[unsafe(no_mangle)]
pub extern "C" fn cellfacet_test_input(
    numbers: &mut [u64; 8],
    buf: &mut [u8],
    txid: &[u8; 32],
    index: u32,
    asset: &[u8; 32],
    amount: u64,
    indices: &[u32],
)
    ensures { exported_turn numbers.new buf.new
        ≡ encoded_turn (add_input memo_most (writer_of numbers.old) buf.old
        txid.now index asset.now amount indices.now) }
{
    steps::cellfacet_test_input(numbers, buf, txid, index, asset, amount, indices)
}

#[unsafe(no_mangle)]
pub extern "C" fn cellfacet_test_operation(numbers: &mut [u64; 8], buf: &mut [u8], bytes: &[u8])
    ensures { exported_turn numbers.new buf.new
        ≡ encoded_turn (add_operation memo_most (writer_of numbers.old) buf.old bytes.now) }
{
    steps::cellfacet_test_operation(numbers, buf, bytes)
}

#[unsafe(no_mangle)]
pub extern "C" fn cellfacet_test_state(numbers: &mut [u64; 8], buf: &mut [u8], bytes: &[u8])
    ensures { exported_turn numbers.new buf.new
        ≡ encoded_turn (add_initial_state memo_most (writer_of numbers.old) buf.old bytes.now) }
{
    steps::cellfacet_test_state(numbers, buf, bytes)
}

#[unsafe(no_mangle)]
pub extern "C" fn cellfacet_test_close(numbers: &mut [u64; 8], buf: &mut [u8])
    ensures { exported_turn numbers.new buf.new ≡ encoded_turn
        (close (avm memo_most) (writer_of numbers.old) buf.old) }
{
    steps::cellfacet_test_close(numbers, buf)
}

#[unsafe(no_mangle)]
pub extern "C" fn cellfacet_test_memo(numbers: &mut [u64; 8], buf: &mut [u8], bytes: &[u8])
    ensures { exported_turn numbers.new buf.new
        ≡ encoded_turn (put_memo memo_most (writer_of numbers.old) buf.old bytes.now) }
{
    steps::cellfacet_test_memo(numbers, buf, bytes)
}

#[unsafe(no_mangle)]
pub extern "C" fn cellfacet_test_name(numbers: &mut [u64; 8], buf: &mut [u8], bytes: &[u8])
    ensures { exported_turn numbers.new buf.new
        ≡ encoded_turn (put_name memo_most (writer_of numbers.old) buf.old bytes.now) }
{
    steps::cellfacet_test_name(numbers, buf, bytes)
}

#[unsafe(no_mangle)]
pub extern "C" fn cellfacet_test_symbol(numbers: &mut [u64; 8], buf: &mut [u8], bytes: &[u8])
    ensures { exported_turn numbers.new buf.new
        ≡ encoded_turn (put_symbol memo_most (writer_of numbers.old) buf.old bytes.now) }
{
    steps::cellfacet_test_symbol(numbers, buf, bytes)
}

#[unsafe(no_mangle)]
pub extern "C" fn cellfacet_test_denomination(numbers: &mut [u64; 8], buf: &mut [u8], value: u8)
    ensures { exported_turn numbers.new buf.new
        ≡ encoded_turn (put_denomination memo_most (writer_of numbers.old) buf.old value) }
{
    steps::cellfacet_test_denomination(numbers, buf, value)
}

#[unsafe(no_mangle)]
pub extern "C" fn cellfacet_test_chain(numbers: &mut [u64; 8], buf: &mut [u8], id: &[u8; 32])
    ensures { exported_turn numbers.new buf.new
        ≡ encoded_turn (put_chain memo_most (writer_of numbers.old) buf.old id.now) }
{
    steps::cellfacet_test_chain(numbers, buf, id)
}

#[unsafe(no_mangle)]
pub extern "C" fn cellfacet_test_finish(numbers: &mut [u64; 8], buf: &mut [u8])
    ensures { exported_turn numbers.new buf.new ≡ encoded_turn
        (finish (avm memo_most) (writer_of numbers.old) buf.old) }
{
    steps::cellfacet_test_finish(numbers, buf)
}
