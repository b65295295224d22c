//! What is true of rows of numbers, and of every route.
ghost use Rattle.route.specs.Laws.{RowLaws};
ghost use Rattle.route.specs.Meant.{route_of};
ghost use Rattle.route.specs.Route.{Formed};

use crate::Route;

/// Adding, removing, sorting and prepending do what their names say.
pub fn row_laws()
    ensures { RowLaws }
{}

/// Every route that the code can hold has a path of 1 to 32 networks and up to 8 communities, rising.
pub fn formed_law(route: &Route)
    ensures { Formed (route_of route.now) }
{
    let _ = route.path.len();
}
