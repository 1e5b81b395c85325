//! What columns and quotients mean, in words: each function here does nothing, and its contract is a fact about all of them.
ghost use Rattle.ac_poly_quotients.specs.LawsOfColumns.{RowsAreSteady, NeverWide, QuotientRowsHold, QuotientRowsAreValues, QuotientRowsHaveColumns, FilledAppends, FilledGrows, FilledHasCounters, FilledIsKnown, KnownAtEachColumn, FormsAreSteady, PiecesAreSteady, FilledWithoutQuotients, ColumnsAreWoven, RowsAreFilled, FinalsAreMade, FinalsAreDistinct, FinalsAreColumns, FormsMove, PiecesMove, QuotientsHaveValues, PlacedStayApart, PlacedHaveColumns, PlainColumnsStay, PlainFormsStay, PlainPiecesStay, MultiplesAreRows, MultiplesAreTests, MultiplesAreApart, CountersAreRead, CountersAreTheSame};
ghost use Rattle.ac_poly_quotients.specs.LawsOfPaths.{PathsArePoints, PathsHaveQuotients, PathsHaveForms};

/// The two rows of each quotient hold if and only if its column has its value. Behind a point all rows hold if and only if the
/// columns have the quotients' values, and each quotient may use those before it. They have no columns but those.
pub fn rows_of_quotients()
    ensures hold { QuotientRowsHold }
    ensures values { QuotientRowsAreValues }
    ensures columns { QuotientRowsHaveColumns }
{}

/// To fill columns appends one number for each, behind what was filled before. The counters are those that are given, and each
/// quotient has its value. What is over the columns before does not see the new ones.
pub fn filled_columns()
    ensures append { FilledAppends }
    ensures grows { FilledGrows }
    ensures counters { FilledHasCounters }
    ensures known { FilledIsKnown }
    ensures at_column { KnownAtEachColumn }
    ensures forms { FormsAreSteady }
    ensures rows { RowsAreSteady }
    ensures pieces { PiecesAreSteady }
    ensures plain { FilledWithoutQuotients }
{}

/// The last columns, read in the order of coming, are the parameters and then counters and quotients woven. If the rows of the
/// quotients hold, that is the filled point. No column stands twice, and each quotient is over the columns before it.
pub fn last_columns()
    ensures woven { ColumnsAreWoven }
    ensures filled { RowsAreFilled }
    ensures made { FinalsAreMade }
    ensures distinct { FinalsAreDistinct }
    ensures columns { FinalsAreColumns }
{}

/// Behind the parameters, the counters and the quotients' values, a moved form has its value at the filled point. The moved
/// pieces with the quotients' rows hold if and only if the pieces hold at the filled point and each quotient has its value.
pub fn moved_forms()
    ensures forms { FormsMove }
    ensures wide { NeverWide }
    ensures pieces { PiecesMove }
    ensures quotients { QuotientsHaveValues }
    ensures apart { PlacedStayApart }
    ensures columns { PlacedHaveColumns }
{}

/// Without quotients nothing moves: columns, forms and pieces are the same.
pub fn plain_columns_stay()
    ensures columns { PlainColumnsStay }
    ensures forms { PlainFormsStay }
    ensures pieces { PlainPiecesStay }
{}

/// Beside the quotient of a form, a row says that the divisor divides the form, and one other row that it does not.
pub fn multiples_are_rows()
    ensures rows { MultiplesAreRows }
    ensures tests { MultiplesAreTests }
    ensures apart { MultiplesAreApart }
{}

/// Counters with quotients behind them are read as counters. Equal coordinates have equal counters.
pub fn counters_with_quotients()
    ensures read { CountersAreRead }
    ensures same { CountersAreTheSame }
{}

/// The model at the end of a way through loops and branches. Coordinates lie in its pieces if and only if they are counters
/// that reach the end, with the quotients' values behind. Its quotients are those that the text has noted on the way. Each moved
/// expression has its value.
pub fn points_of_paths()
    ensures points { PathsArePoints }
    ensures quotients { PathsHaveQuotients }
    ensures forms { PathsHaveForms }
{}
