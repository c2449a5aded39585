// A signed AVM transaction: its types, the answers of its check and its readers, and the typed fields of each entry.
#![tactic(auto)]

use element::{InputFields, OperationFields, OutputFields};

// The most bytes of a signed transaction.
pub const MOST_BYTES: usize = 65536;

// The most bytes of a memo.
pub const MEMO_MOST: u64 = 256;

// The bytes of a signature.
pub const SIGNATURE_WIDTH: usize = 65;

// The types of a credential: for an input, and for an operation.
pub const SECP_CREDENTIAL: u64 = 9;

pub const NFT_CREDENTIAL: u64 = 14;

// The types of a transaction, 0 to 4.
#[derive(Clone, Copy, PartialEq, Eq)]
pub enum TransactionType {
    Base,
    CreateAsset,
    Operation,
    Import,
    Export,
}

// The names of the fields and lists between the chain id and the credentials.
#[derive(Clone, Copy, PartialEq, Eq)]
pub enum FieldName {
    Memo,
    Name,
    Symbol,
    Denomination,
    Chain,
}

#[derive(Clone, Copy, PartialEq, Eq)]
pub enum ListName {
    Output,
    Input,
    State,
    Operation,
    Imported,
    Exported,
}

#[derive(Clone, Copy)]
pub struct CredentialFields {
    pub type_id: u64,
    pub signatures_at: usize,
    pub signatures_count: u64,
}

// The typed fields of an entry, by its kind (1 to 7).
#[derive(Clone, Copy)]
pub enum Entry {
    Output(OutputFields),
    Input(InputFields),
    Operation(OperationFields),
    ImportedInput(InputFields),
    ExportedOutput(OutputFields),
    InitialStateOutput(OutputFields),
    Credential(CredentialFields),
}

// The layout of a transaction: its type's number, the offset of the inputs' count, the number of credentials wanted, and the offset of their count.
#[derive(Clone, Copy)]
pub struct Layout {
    pub type_id: u32,
    pub inputs_at: usize,
    pub credentials_count: u64,
    pub credentials_at: usize,
}
