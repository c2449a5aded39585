// The writer's steps for tests in C or Rust; each is exported to C by a name of its own. The state is passed as integers in a lent array, followed by
// the answer's number and place.
ghost use Rattle.std.specs.Prelude.{◌≡◌};
ghost use Rattle.transaction.specs.Avm.{avm};
ghost use Rattle.transaction.specs.Answer.{memo_most};
ghost use Rattle.writer.specs.Fields.{add_output, add_input, add_operation, add_initial_state, put_memo, put_name, put_symbol, put_denomination, put_chain};
ghost use Rattle.writer.specs.Steps.{fresh, start, close, finish};
ghost use Rattle.test_exports.specs.code.Turns.{writer_of, numbers_of, encoded_step, exported_turn, encoded_turn};

use writer::{Step, Writer};

fn writer_of(numbers: &[u64; 8]) -> Writer
    ensures { result ≡ writer_of numbers.now }
{
    Writer {
        type_id: (numbers[0] & 0xffff_ffff) as u32,
        phase: (numbers[1] & 0xffff_ffff) as u32,
        at: numbers[2] as usize,
        list: numbers[3] as usize,
        count: (numbers[4] & 0xffff_ffff) as u32,
        last: numbers[5] as usize,
    }
}

fn numbers_of(writer: Writer, number: u64, place: u64) -> [u64; 8]
    ensures { result ≡ numbers_of writer number place }
{
    [
        writer.type_id as u64,
        writer.phase as u64,
        writer.at as u64,
        writer.list as u64,
        writer.count as u64,
        writer.last as u64,
        number,
        place,
    ]
}

fn step_numbers(step: Step) -> [u64; 8]
    ensures { result ≡ encoded_step step }
{
    match step.answer {
        Ok(length) => numbers_of(step.next, 0, length as u64),
        Err(refusal) => numbers_of(
            step.next,
            u32::from(refusal.rule) as u64,
            refusal.place as u64,
        ),
    }
}

pub fn cellfacet_test_fresh(numbers: &mut [u64; 8])
    ensures { numbers.new ≡ numbers_of fresh 0 0 }
{
    *numbers = numbers_of(Writer::fresh(), 0, 0);
}

pub fn cellfacet_test_start(
    numbers: &mut [u64; 8],
    buf: &mut [u8],
    type_id: u32,
    network: u32,
    chain: &[u8; 32],
)
    ensures { exported_turn numbers.new buf.new
        ≡ encoded_turn (start (avm memo_most) (writer_of numbers.old) buf.old type_id network chain.now) }
{
    let step = writer_of(numbers).start(buf, type_id, network, *chain);
    *numbers = step_numbers(step);
}

pub fn cellfacet_test_output(
    numbers: &mut [u64; 8],
    buf: &mut [u8],
    asset: &[u8; 32],
    amount: u64,
    locktime: u64,
    threshold: u32,
    addresses: &[u8],
)
    ensures { exported_turn numbers.new buf.new
        ≡ encoded_turn (add_output memo_most (writer_of numbers.old) buf.old
        asset.now amount locktime threshold addresses.now) }
{
    let step = writer_of(numbers).add_output(buf, *asset, amount, locktime, threshold, addresses);
    *numbers = step_numbers(step);
}

pub fn cellfacet_test_input(
    numbers: &mut [u64; 8],
    buf: &mut [u8],
    txid: &[u8; 32],
    index: u32,
    asset: &[u8; 32],
    amount: u64,
    indices: &[u32],
)
    ensures { exported_turn numbers.new buf.new
        ≡ encoded_turn (add_input memo_most (writer_of numbers.old) buf.old
        txid.now index asset.now amount indices.now) }
{
    let step = writer_of(numbers).add_input(buf, *txid, index, *asset, amount, indices);
    *numbers = step_numbers(step);
}

pub fn cellfacet_test_operation(numbers: &mut [u64; 8], buf: &mut [u8], bytes: &[u8])
    ensures { exported_turn numbers.new buf.new
        ≡ encoded_turn (add_operation memo_most (writer_of numbers.old) buf.old bytes.now) }
{
    let step = writer_of(numbers).add_operation(buf, bytes);
    *numbers = step_numbers(step);
}

pub fn cellfacet_test_state(numbers: &mut [u64; 8], buf: &mut [u8], bytes: &[u8])
    ensures { exported_turn numbers.new buf.new
        ≡ encoded_turn (add_initial_state memo_most (writer_of numbers.old) buf.old bytes.now) }
{
    let step = writer_of(numbers).add_initial_state(buf, bytes);
    *numbers = step_numbers(step);
}

pub fn cellfacet_test_close(numbers: &mut [u64; 8], buf: &mut [u8])
    ensures { exported_turn numbers.new buf.new ≡ encoded_turn
        (close (avm memo_most) (writer_of numbers.old) buf.old) }
{
    let step = writer_of(numbers).close(buf);
    *numbers = step_numbers(step);
}

pub fn cellfacet_test_memo(numbers: &mut [u64; 8], buf: &mut [u8], bytes: &[u8])
    ensures { exported_turn numbers.new buf.new
        ≡ encoded_turn (put_memo memo_most (writer_of numbers.old) buf.old bytes.now) }
{
    let step = writer_of(numbers).memo(buf, bytes);
    *numbers = step_numbers(step);
}

pub fn cellfacet_test_name(numbers: &mut [u64; 8], buf: &mut [u8], bytes: &[u8])
    ensures { exported_turn numbers.new buf.new
        ≡ encoded_turn (put_name memo_most (writer_of numbers.old) buf.old bytes.now) }
{
    let step = writer_of(numbers).name(buf, bytes);
    *numbers = step_numbers(step);
}

pub fn cellfacet_test_symbol(numbers: &mut [u64; 8], buf: &mut [u8], bytes: &[u8])
    ensures { exported_turn numbers.new buf.new
        ≡ encoded_turn (put_symbol memo_most (writer_of numbers.old) buf.old bytes.now) }
{
    let step = writer_of(numbers).symbol(buf, bytes);
    *numbers = step_numbers(step);
}

pub fn cellfacet_test_denomination(numbers: &mut [u64; 8], buf: &mut [u8], value: u8)
    ensures { exported_turn numbers.new buf.new
        ≡ encoded_turn (put_denomination memo_most (writer_of numbers.old) buf.old value) }
{
    let step = writer_of(numbers).denomination(buf, value);
    *numbers = step_numbers(step);
}

pub fn cellfacet_test_chain(numbers: &mut [u64; 8], buf: &mut [u8], id: &[u8; 32])
    ensures { exported_turn numbers.new buf.new
        ≡ encoded_turn (put_chain memo_most (writer_of numbers.old) buf.old id.now) }
{
    let step = writer_of(numbers).chain(buf, *id);
    *numbers = step_numbers(step);
}

pub fn cellfacet_test_finish(numbers: &mut [u64; 8], buf: &mut [u8])
    ensures { exported_turn numbers.new buf.new ≡ encoded_turn
        (finish (avm memo_most) (writer_of numbers.old) buf.old) }
{
    let step = writer_of(numbers).finish(buf);
    *numbers = step_numbers(step);
}
