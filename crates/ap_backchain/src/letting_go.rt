//! What a search keeps of goals that wait no longer.

ghost use Rattle.std.specs.Prelude.{◌≡◌};
ghost use Rattle.ap_backchain.specs.Searches.{HasPoints, pending_positions};
ghost use Rattle.ap_machine.specs.Machines.{position_of};

use crate::points::ChoicePoint;
use ap_machine::machine::Machine;
use ap_machine::saves::Save;

// So many cells of goals that wait no longer are let go at once.
const MANY_CELLS: usize = 1_024;

/// Lets go of the cells of goals that wait no longer, where there are many.
fn let_go_cells<'a>(machine: &mut Machine<'a>)
    ensures { position_of machine.new ≡ position_of machine.old }
{
    let save = machine.save();
    if save.cells - save.first >= MANY_CELLS {
        machine.go_back(Save {
            mark: save.mark,
            cells: save.first,
            first: save.first,
            path: save.path,
            brought: save.brought,
        });
    }
}

/// Lets go of the goals that wait no longer, where no choice has a way left to which the search could go back.
pub(crate) fn let_go<'a>(machine: &mut Machine<'a>, points: &Vec<ChoicePoint<'a>>)
    requires { HasPoints machine.old points.now }
    ensures position { position_of machine.new ≡ position_of machine.old }
    ensures pending { pending_positions machine.new points.now
        ≡ pending_positions machine.old points.now }
    ensures points { HasPoints machine.new points.now }
{
    if points.as_slice().is_empty() {
        let_go_cells(machine);
    }
}
