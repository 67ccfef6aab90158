// What turns a build away before anything is measured.
ghost use Rattle.std.specs.Prelude.{◌≡◌, true, ◌&&◌, [], ◌∷◌, IfOk};
ghost use Rattle.basics.specs.Answers.{fault_in};
ghost use Rattle.basics.specs.Lists.{all};
ghost use Rattle.basics.specs.Refusals.{fault};
ghost use Rattle.floats.specs.Tests.{finite};
ghost use Rattle.geometry.specs.Position.{coordinate};
ghost use Rattle.mesh.specs.Mesh.{seen};
ghost use Rattle.grid_cells.specs.Build.{lists_too_long, size_tests, not_part, settings_ok, given_tests};
ghost use Rattle.grid_cells.specs.Lent.{lent};
ghost use Rattle.grid_cells.specs.Steps.{early_tests};

use crate::lists::IndexLists;
use basics::Refusal;
use cell_sizes::Settings;
use geometry::Dimension;
use mesh::{Mesh, WholeMesh};

impl IndexLists<'_> {
    // Whether a list of rows or of large cells has more than 65,536 entries.
    #[tactic(auto, unfolding(crate::specs::Build::lists_too_long))]
    fn is_too_long(self) -> bool
        ensures { result ≡ lists_too_long (lent self.entry) }
    {
        (self.keys.len() > 65536) | ((self.cells.len() > 65536) | (self.large.len() > 65536))
    }
}

// The mesh's dimension, or what turns it or the lists by their lengths away: 1 or 24.
#[tactic(auto, unfolding(basics::specs::Refusals::fault, crate::specs::Build::size_tests))]
pub fn sizes_fault(mesh: Mesh, lists: IndexLists) -> Result<Dimension, Refusal>
    ensures judged { fault_in result ≡ fault (size_tests mesh.entry.ndim (seen mesh.entry) (lent lists.entry)) }
    ensures same { IfOk result (λ d. d.n ≡ mesh.entry.ndim) }
{
    let ndim = Dimension::try_from(mesh.ndim)?;
    if mesh.is_too_long(ndim) | lists.is_too_long() {
        return Err(Refusal::TooLong);
    }
    Ok(ndim)
}

// Whether a cutoff or a percentage lies outside 0 to 1.
fn is_no_part(v: f64) -> bool
    ensures { result ≡ not_part v }
{
    (v < 0.0) | (v > 1.0)
}

// Whether every setting is finite.
#[tactic(auto, unfolding(basics::specs::Lists::all))]
fn are_finite(t: Settings) -> bool
    ensures { result ≡ all finite (t.tolerance ∷ t.border_tol ∷ t.large_cutoff ∷ t.large_pct ∷ []) }
{
    [t.tolerance, t.border_tol, t.large_cutoff, t.large_pct]
        .iter()
        .all(|v| floats::is_finite(*v))
}

// Whether 3 is not the case.
#[tactic(auto, unfolding(crate::specs::Build::settings_ok))]
fn are_values_ok(coords: &[f64], t: Settings) -> bool
    ensures { result ≡ (all coordinate coords.now && settings_ok t) }
{
    geometry::all_coordinates(coords)
        & (are_finite(t) & !grid_search::past_limits(t.tolerance, t.border_tol))
}

// The mesh, known to be whole, or what turns it away: 13, 19, 3, 8, 9, 20, 21 or 18, for the rows' lists by their lengths,
// the mesh and the settings.
#[tactic(auto, unfolding(basics::specs::Refusals::fault, crate::specs::Build::given_tests))]
fn given<'a, 'b>(
    ndim: Dimension,
    mesh: Mesh<'a, 'b>,
    t: Settings,
    lists: IndexLists,
) -> Result<WholeMesh<'a, 'b>, Refusal>
    ensures judged { fault_in result ≡ fault (given_tests ndim.n (seen mesh.entry) t (lent lists.entry)) }
    ensures same { IfOk result (λ w. (w.ndim.n ≡ ndim.n) × (w.mesh ≡ mesh.entry)) }
{
    if lists.cells.len() != lists.keys.len() {
        return Err(Refusal::Damaged);
    }
    let whole = mesh.whole(ndim)?;
    if !are_values_ok(mesh.coords, t) {
        return Err(Refusal::Limit);
    }
    if t.tolerance <= 0.0 {
        return Err(Refusal::Tolerance);
    }
    if t.border_tol < 0.0 {
        return Err(Refusal::Border);
    }
    if is_no_part(t.large_cutoff) {
        return Err(Refusal::Cutoff);
    }
    if is_no_part(t.large_pct) {
        return Err(Refusal::Percentage);
    }
    if whole.cell_count() == 0 {
        return Err(Refusal::NoCells);
    }
    Ok(whole)
}

// The mesh, known to be whole, or what turns it away: 1, 24, or those.
pub fn judged<'a, 'b>(
    mesh: Mesh<'a, 'b>,
    settings: Settings,
    lists: IndexLists,
) -> Result<WholeMesh<'a, 'b>, Refusal>
    ensures judged { fault_in result ≡ fault (early_tests mesh.entry.ndim (seen mesh.entry) settings (lent lists.entry)) }
    ensures same { IfOk result (λ w. (w.ndim.n ≡ mesh.entry.ndim) × (w.mesh ≡ mesh.entry)) }
{
    let ndim = sizes_fault(mesh, lists)?;
    given(ndim, mesh, settings, lists)
}
