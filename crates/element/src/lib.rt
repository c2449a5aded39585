// The elements of a transaction: outputs, inputs, operations and initial states. A reader takes the fields from left to right and returns the
// offset just past the element.
#![tactic(auto)]

pub mod inputs;
pub mod operations;
pub mod outputs;

use owners::OwnersFields;

// The types of outputs. They are the format's numbers, matched where they are read; an enum would be matched a second time.
pub const SECP_MINT: u64 = 6;

pub const SECP_TRANSFER: u64 = 7;

pub const NFT_MINT: u64 = 10;

pub(crate) const NFT_TRANSFER: u64 = 11;

// The type of an input.
pub(crate) const SECP_INPUT: u64 = 5;

// The types of operations: a mint and a transfer.
pub const MINT_OPERATION: u64 = 12;

pub(crate) const TRANSFER_OPERATION: u64 = 13;

// An output's own fields, by its type (6, 7, 10 or 11).
#[derive(Clone, Copy)]
pub enum OutputFields {
    SecpMint(OwnersFields),
    SecpTransfer {
        amount: u64,
        owners: OwnersFields,
    },
    NftMint {
        group: u64,
        owners: OwnersFields,
    },
    NftTransfer {
        group: u64,
        payload_at: usize,
        payload_length: u64,
        owners: OwnersFields,
    },
}

// An input's fields other than its identifiers.
#[derive(Clone, Copy)]
pub struct InputFields {
    pub index: u64,
    pub amount: u64,
    pub indices_at: usize,
    pub indices_count: u64,
}

// Who receives the outputs of an operation: a list of owners for a mint (12), owners for a transfer (13).
#[derive(Clone, Copy)]
pub enum Recipients {
    Mint { owners_at: usize, owners_count: u64 },
    Transfer(OwnersFields),
}

// An operation's terms: the address indices of its signers, the group and the payload.
#[derive(Clone, Copy)]
pub struct TermsFields {
    pub indices_at: usize,
    pub indices_count: u64,
    pub group: u64,
    pub payload_at: usize,
    pub payload_length: u64,
}

// An operation's fields other than its asset id.
#[derive(Clone, Copy)]
pub struct OperationFields {
    pub outputs_at: usize,
    pub outputs_count: u64,
    pub terms: TermsFields,
    pub recipients: Recipients,
}
