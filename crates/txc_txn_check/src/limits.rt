// The limits of a transaction.

/// The maximum number of channels of a transaction.
pub const MAX_DECLARED: usize = 4;

/// The maximum depth of nested alternatives.
pub const MAX_NESTED: usize = 8;

/// The maximum number of operations of a transaction, in all branches together.
pub const MAX_OPERATIONS: usize = 64;
