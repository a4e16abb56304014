//! The figures of the limits that the definitions cite, each written out: the contract of a
//! function that does nothing.

ghost use Rattle.std.specs.Prelude.{◌≡◌};
ghost use Rattle.list_encoder.specs.declared.cells.TheConstants.{MAX_CELLS};
ghost use Rattle.list_encoder.specs.declared.cell_table.TheConstants.{MAX_PATH_CONTAINERS};

/// A search has at most 6,273 cells: the start's, and those of 128 SIDs at each of 49 positions;
/// and a least list at most eight containers for each.
pub fn limits_have_their_figures()
    ensures { (MAX_CELLS ≡ 6273) × (MAX_PATH_CONTAINERS ≡ 50184) }
{}
