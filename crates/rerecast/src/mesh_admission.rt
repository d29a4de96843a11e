// The tests in front of a call that takes a mesh: those of every call, with the mesh's shape among them, and then its indices and vertex numbers.
ghost use Rattle.std.specs.Prelude.{◌≡◌, ℕ, ◌<◌, length, get_or, not, find};
ghost use Rattle.grid.specs.Grid.{coordinate_ok};
ghost use Rattle.field.specs.Store.{store};
ghost use Rattle.field.specs.Inner.{Says};
ghost use Rattle.field.specs.Meshes.{Shaped};
ghost use Rattle.rerecast.specs.MeshAdmission.{AdmitsNumbers, AdmitsMesh};
ghost use Rattle.rerecast.specs.Lent.{slots_in, mesh_of};

use crate::Refusal;
use crate::admission::admit;
use crate::lent::{Columns, Mesh};
use grid::{Grid, Size};

// Has a mesh its shape: whole vertices, an area for each triangle, and no more triangles than are taken?
fn mesh_shaped(mesh: &Mesh<'_>) -> bool
    ensures { Says result (Shaped (mesh_of mesh.now)) }
{
    let triangles = mesh.areas.len();
    mesh.vertices.len() % 3 == 0 && triangles <= 16777216 && mesh.indices.len() == triangles * 3
}

// Does each index name a vertex?
fn all_named(indices: &[u32], count: usize) -> bool
    ensures { Says result ((k : ℕ) → k < length indices.now → get_or indices.now k 0 < count) }
{
    indices.iter().all(|i| (*i as usize) < count)
}

// The first vertex number that is outside its limits, as they lie, used or not.
fn first_outside(vertices: &[f32]) -> Option<f32>
    ensures { result ≡ find (λ x. not (coordinate_ok x)) vertices.now }
{
    vertices.iter().copied().find(|x| !grid::coordinate(*x))
}

// The tests of a mesh's numbers, for a mesh that has its shape.
fn admit_numbers(mesh: &Mesh<'_>) -> Result<(), Refusal>
    ensures { AdmitsNumbers result (mesh_of mesh.now) }
{
    if !all_named(mesh.indices, mesh.vertices.len() / 3) {
        return Err(Refusal::NoVertex);
    }
    match first_outside(mesh.vertices) {
        Some(x) => Err(Refusal::BadNumber(x)),
        None => Ok(()),
    }
}

// All of them, in their order. The shared tests find too few heads where the mesh has not its shape: then no grid is small enough.
pub(crate) fn admit_mesh(
    grid: Grid,
    columns: &Columns<'_>,
    areas: &[u8],
    marks: &mut [u8],
    mesh: &Mesh<'_>,
) -> Result<Size, Refusal>
    ensures { AdmitsMesh result grid (mesh_of mesh.now) (store columns.now.heads.now (slots_in columns.now areas.now) marks.old) marks.new }
{
    let shortest = if mesh_shaped(mesh) {
        columns.heads.len()
    } else {
        0
    };
    let size = admit(grid, columns, areas, marks, shortest)?;
    admit_numbers(mesh)?;
    Ok(size)
}
