//! What follows for every play of columns.
ghost use Rattle.ct_troupe.specs.Laws.{ColumnsKeepTheirChain};

/// Where journals are those of a plan that was cut, each call that their clients made has the column's number as its chain.
pub fn columns_keep_their_chain()
    ensures { ColumnsKeepTheirChain }
{}
