// A writer of transactions over a lent buffer. Each step takes the writer's state and returns the next one.
#![tactic(auto)]

ghost use Rattle.std.specs.Prelude.{◌≡◌};
ghost use Rattle.writer.specs.Fields.{add_output, add_input, add_operation, add_initial_state, put_memo, put_name, put_symbol, put_denomination, put_chain};
ghost use Rattle.transaction.specs.Avm.{avm};
ghost use Rattle.transaction.specs.Answer.{memo_most};
ghost use Rattle.writer.specs.Steps.{fresh, start, close, finish, after};

mod steps;

use plan::{Due, rows};
use transaction::{FieldName, ListName};
use wire::Refusal;
use writer_rules::{elements, values};
use writer_transfers::{input_rules, output_rules};

// How far a transaction is written: its type, how many segments are begun, and the bytes written so far; and for the open list the offset of its
// count, how many elements it has, and the offset of the last one.
#[derive(Clone, Copy)]
pub struct Writer {
    pub type_id: u32,
    pub phase: u32,
    pub at: usize,
    pub list: usize,
    pub count: u32,
    pub last: usize,
}

// The state after a step, and its answer.
#[derive(Clone, Copy)]
pub struct Step {
    pub next: Writer,
    pub answer: Result<usize, Refusal>,
}

// Each step makes its tests in the same order: whether it is due, whether the buffer has the bytes written so far, its rules, and last, in the
// store, whether there is room. A refused step changes neither state nor buffer.
impl Writer {
    // A writer that has written nothing: the state that `start` needs.
    pub fn fresh() -> Writer
        ensures { result ≡ fresh }
    {
        Writer {
            type_id: 0,
            phase: 0,
            at: 0,
            list: 0,
            count: 0,
            last: 0,
        }
    }

    // Starts a transaction: writes codec, type, network and chain id, and opens the list of outputs.
    pub fn start(self, buf: &mut [u8], type_id: u32, network: u32, chain: [u8; 32]) -> Step
        ensures { after result buf.new ≡ start (avm memo_most) self buf.old type_id network chain }
    {
        if let Err(refusal) = steps::ready(self, self.phase == 0, buf.len()) {
            return steps::refused(self, refusal);
        }
        if let Err(refusal) = values::type_rules(type_id) {
            return steps::refused(self, refusal);
        }
        let mut front = [0u8; 10];
        wire::put_integer(&mut front, type_id as u64 * 4294967296 + network as u64);
        let from = Writer {
            type_id,
            phase: 1,
            ..Writer::fresh()
        };
        steps::settle(self, buf, &front, &chain, true, from)
    }

    // Closes the open list, and opens the next one if a list follows.
    pub fn close(self, buf: &mut [u8]) -> Step
        ensures { after result buf.new ≡ close (avm memo_most) self buf.old }
    {
        let Due::List(_, least) = rows::due_at(self.type_id, self.phase) else {
            return steps::not_due(self);
        };
        if let Err(refusal) = steps::ready(self, true, buf.len()) {
            return steps::refused(self, refusal);
        }
        if let Err(refusal) = values::list_rules(self.count, least) {
            return steps::refused(self, refusal);
        }
        steps::put_segment(self, buf, &[], &[])
    }

    // Writes the memo, at most 256 bytes.
    pub fn memo(self, buf: &mut [u8], bytes: &[u8]) -> Step
        ensures { after result buf.new ≡ put_memo memo_most self buf.old bytes.now }
    {
        let due = writer_due::field_at(self.type_id, self.phase, FieldName::Memo);
        if let Err(refusal) = steps::ready(self, due, buf.len()) {
            return steps::refused(self, refusal);
        }
        if let Err(refusal) = values::memo_rules(bytes.len(), transaction::MEMO_MOST) {
            return steps::refused(self, refusal);
        }
        let mut count = [0u8; 4];
        wire::put_integer(&mut count, bytes.len() as u64);
        steps::put_segment(self, buf, &count, bytes)
    }

    // Writes the name of a new asset, 1 to 128 printable characters.
    pub fn name(self, buf: &mut [u8], bytes: &[u8]) -> Step
        ensures { after result buf.new ≡ put_name memo_most self buf.old bytes.now }
    {
        let due = writer_due::field_at(self.type_id, self.phase, FieldName::Name);
        if let Err(refusal) = steps::ready(self, due, buf.len()) {
            return steps::refused(self, refusal);
        }
        if let Err(refusal) = values::text_rules(bytes, string::NAME_MOST as usize) {
            return steps::refused(self, refusal);
        }
        let mut count = [0u8; 2];
        wire::put_integer(&mut count, bytes.len() as u64);
        steps::put_segment(self, buf, &count, bytes)
    }

    // Writes the symbol of a new asset, 1 to 4 printable characters.
    // Not one function with `name`: its contract would need a `requires` that ties the field to its limit.
    pub fn symbol(self, buf: &mut [u8], bytes: &[u8]) -> Step
        ensures { after result buf.new ≡ put_symbol memo_most self buf.old bytes.now }
    {
        let due = writer_due::field_at(self.type_id, self.phase, FieldName::Symbol);
        if let Err(refusal) = steps::ready(self, due, buf.len()) {
            return steps::refused(self, refusal);
        }
        if let Err(refusal) = values::text_rules(bytes, string::SYMBOL_MOST as usize) {
            return steps::refused(self, refusal);
        }
        let mut count = [0u8; 2];
        wire::put_integer(&mut count, bytes.len() as u64);
        steps::put_segment(self, buf, &count, bytes)
    }

    // Writes the denomination of a new asset, at most 32.
    pub fn denomination(self, buf: &mut [u8], value: u8) -> Step
        ensures { after result buf.new ≡ put_denomination memo_most self buf.old value }
    {
        let due = writer_due::field_at(self.type_id, self.phase, FieldName::Denomination);
        if let Err(refusal) = steps::ready(self, due, buf.len()) {
            return steps::refused(self, refusal);
        }
        if let Err(refusal) = values::denomination_rules(value) {
            return steps::refused(self, refusal);
        }
        let mut byte = [0u8; 1];
        wire::put_integer(&mut byte, value as u64);
        steps::put_segment(self, buf, &byte, &[])
    }

    // Writes the source chain of an import, or the destination chain of an export.
    pub fn chain(self, buf: &mut [u8], id: [u8; 32]) -> Step
        ensures { after result buf.new ≡ put_chain memo_most self buf.old id }
    {
        let due = writer_due::field_at(self.type_id, self.phase, FieldName::Chain);
        if let Err(refusal) = steps::ready(self, due, buf.len()) {
            return steps::refused(self, refusal);
        }
        steps::put_segment(self, buf, &[], &id)
    }

    // Adds a transferable output. `addresses` holds its addresses one after the other, 20 bytes each.
    pub fn add_output(
        self,
        buf: &mut [u8],
        asset: [u8; 32],
        amount: u64,
        locktime: u64,
        threshold: u32,
        addresses: &[u8],
    ) -> Step
        ensures { after result buf.new ≡ add_output memo_most self buf.old asset amount locktime threshold addresses.now }
    {
        let due = steps::is_element_due(self, ListName::Output);
        if let Err(refusal) = steps::ready(self, due, buf.len()) {
            return steps::refused(self, refusal);
        }
        let last = steps::last_of(self, &buf[..]);
        let mut head = [0u8; 60];
        let rules = output_rules(
            last, asset, amount, locktime, threshold, addresses, &mut head,
        );
        if let Err(refusal) = rules {
            return steps::refused(self, refusal);
        }
        steps::put_element(self, buf, &head, addresses, &[])
    }

    // Adds a transferable input, base or imported.
    pub fn add_input(
        self,
        buf: &mut [u8],
        txid: [u8; 32],
        index: u32,
        asset: [u8; 32],
        amount: u64,
        indices: &[u32],
    ) -> Step
        ensures { after result buf.new ≡ add_input memo_most self buf.old txid index asset amount indices.now }
    {
        let due = steps::is_element_due(self, ListName::Input);
        if let Err(refusal) = steps::ready(self, due, buf.len()) {
            return steps::refused(self, refusal);
        }
        let last = steps::last_of(self, &buf[..]);
        let mut head = [0u8; 84];
        let rules = input_rules(last, txid, index, asset, amount, indices, &mut head);
        if let Err(refusal) = rules {
            return steps::refused(self, refusal);
        }
        steps::put_element(self, buf, &head, &[], indices)
    }

    // Adds an operation, given as its bytes.
    pub fn add_operation(self, buf: &mut [u8], bytes: &[u8]) -> Step
        ensures { after result buf.new ≡ add_operation memo_most self buf.old bytes.now }
    {
        let due = steps::is_element_due(self, ListName::Operation);
        if let Err(refusal) = steps::ready(self, due, buf.len()) {
            return steps::refused(self, refusal);
        }
        if let Err(refusal) = elements::operation_rules(bytes) {
            return steps::refused(self, refusal);
        }
        steps::put_element(self, buf, &[], bytes, &[])
    }

    // Adds an initial state, given as its bytes.
    pub fn add_initial_state(self, buf: &mut [u8], bytes: &[u8]) -> Step
        ensures { after result buf.new ≡ add_initial_state memo_most self buf.old bytes.now }
    {
        let due = steps::is_element_due(self, ListName::State);
        if let Err(refusal) = steps::ready(self, due, buf.len()) {
            return steps::refused(self, refusal);
        }
        let last = steps::last_of(self, &buf[..]);
        if let Err(refusal) = elements::state_rules(last, bytes) {
            return steps::refused(self, refusal);
        }
        steps::put_element(self, buf, &[], bytes, &[])
    }

    // Ends the transaction with its blank credentials, in which every signature is zero bytes.
    pub fn finish(self, buf: &mut [u8]) -> Step
        ensures { after result buf.new ≡ finish (avm memo_most) self buf.old }
    {
        if !writer_due::end_at(self.type_id, self.phase) {
            return steps::not_due(self);
        }
        let phase = self.phase + 1;
        match writer_buffer::blank::append(buf, self.at, transaction::MEMO_MOST) {
            Err(refusal) => steps::refused(self, refusal),
            Ok(end) => steps::stored(Writer {
                phase,
                at: end,
                list: end,
                count: 0,
                last: 0,
                ..self
            }),
        }
    }
}
