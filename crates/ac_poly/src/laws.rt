//! What a lowered program means, in words: each function here does nothing, and its contract is a fact about all programs.
ghost use Rattle.ac_poly.specs.ModelMeaning.{PointsAreInstances, TargetsAreCells, NodesAreValues};
ghost use Rattle.ac_poly.specs.CoordinateColumns.{ElementRowsHold};
ghost use Rattle.ac_poly.specs.LevelRows.{LevelsAreTheOrder, LevelsAreApart, LevelsHaveColumns, LevelsMove, EqualitiesAreEqualValues};

/// The points of an assignment's pieces are exactly its instances: at each valuation of the parameters, a list of
/// counters lies in some piece exactly where the trace has an entry of the assignment with these counters.
pub fn points_of_pieces()
    ensures { PointsAreInstances }
{}

/// At an entry of the trace the forms of its assignment have the index values: those of the target give the cell that is
/// written, and each node of the value has its model, in preorder, with the numbers of its arguments.
pub fn values_of_forms()
    ensures target { TargetsAreCells }
    ensures nodes { NodesAreValues }
{}

/// At two entries of a trace one of the levels of their assignments holds exactly where the first stands before the
/// second, whatever columns their counters stand in. No two levels hold at one point, and their rows have no other columns.
pub fn order_by_levels()
    ensures order { LevelsAreTheOrder }
    ensures apart { LevelsAreApart }
    ensures columns { LevelsHaveColumns }
    ensures elsewhere { LevelsMove }
{}

/// The equalities of two lists of forms hold at a point exactly where all their values are equal there.
pub fn equal_cells()
    ensures { EqualitiesAreEqualValues }
{}

/// The rows of the elements of an array hold exactly where each coordinate lies from 0 to below its extent.
pub fn elements_of_arrays()
    ensures { ElementRowsHold }
{}
