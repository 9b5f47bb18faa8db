// The laws of transactions of one operation and of two.
ghost use Rattle.txc_txn.specs.OneOperation.{OneIsItself};
ghost use Rattle.txc_txn.specs.TwoOperations.{TwoAreInTurn};

/// Proves that a transaction of one operation, on the channel that the operation names, does to that channel what the
/// operation does, under the tag that it commits with. Does nothing at run time.
pub fn one_operation_is_itself()
    ensures { OneIsItself }
{}

/// Proves that a transaction of two operations is the one operation and then the other, under the tag that it commits
/// with. Does nothing at run time.
pub fn two_operations_are_in_turn()
    ensures { TwoAreInTurn }
{}
