// Two geometries compared.
ghost use Rattle.std.specs.Prelude.{◌≡◌};
ghost use Rattle.geometry_answers.specs.Same.{same_geometry};

use geometry::Geometry;

// All fields of two geometries are the same.
pub fn same_geometry(a: Geometry, b: Geometry) -> bool
    ensures { result ≡ same_geometry a b }
{
    a == b
}
