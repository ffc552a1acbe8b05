//! What follows for every plan that is cut.
ghost use Rattle.ct_chain.specs.Laws.{CallsHaveTheirChain, CallsStandOnce, ColumnsAreApart, OrderIsKept, RoundsStandInEach};

/// Two calls that speak of one record have one chain, so no two columns have a record in common.
pub fn columns_are_apart()
    ensures { ColumnsAreApart }
{}

/// Each call of a column has the column's number as its chain.
pub fn calls_have_their_chain()
    ensures { CallsHaveTheirChain }
{}

/// Each call of a script stands in the column of its chain as often as it stood in the script, and in no other.
pub fn calls_stand_once()
    ensures { CallsStandOnce }
{}

/// Each round of a script stands in each column as often as it stood in the script.
pub fn rounds_stand_in_each()
    ensures { RoundsStandInEach }
{}

/// What stands of a script in a column stands in the order of the script.
pub fn order_is_kept()
    ensures { OrderIsKept }
{}
