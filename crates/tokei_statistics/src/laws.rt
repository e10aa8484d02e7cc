//! Laws of the definitions: each function's contract is a law, and its body does nothing.
ghost use Rattle.tokei_statistics.specs.OrderLaws.{OrderKeepsLanguages, OrderKeepsTotals};

/// Files that are counted in another order give equal totals: only the order of the reports
/// differs.
pub fn order_keeps_totals()
    ensures { OrderKeepsTotals }
{}

/// Files that are counted in another order give the same languages, each with equal counts and an
/// equal mark, and the same reports of its own and of each language inside it: only their order
/// differs.
pub fn order_keeps_languages()
    ensures { OrderKeepsLanguages }
{}
