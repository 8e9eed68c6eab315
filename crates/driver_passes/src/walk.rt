// The two walks over the useful controls, which add controls to a draft, that is, to a pass that is being
// made. Two controls are together if the setting with just these two is safe. A walk skips controls that
// cannot be added, 64 at a time. A control is useful if it is safe alone and enables a tested driver.
ghost use Rattle.std.specs.Prelude.{◌≡◌, ◌<◌, length};
ghost use Rattle.board_defs.specs.Passes.{useful_controls};
ghost use Rattle.driver_passes.specs.inner.Progress.{IsProgress};
ghost use Rattle.driver_passes.specs.inner.Walks.{first_walked, second_walked};

use crate::draft::Draft;
use crate::drivers::Progress;

impl<'a, 'b> Draft<'a, 'b> {
    /// Finds the first useful control from place `from` on that is in no earlier pass and is together with all controls
    /// of the draft. Adds this control, if there is one. Returns the place to continue with. `from` must be the place
    /// of a useful control, and the earlier passes must be passes of the draft's board.
    fn add_new(&mut self, earlier: &Progress, from: usize) -> usize
        requires earlier { IsProgress self.old.board earlier.now }
        requires from { from < length (useful_controls self.old.board) }
        ensures board { self.new.board ≡ self.old.board }
        ensures further { from < result }
        ensures step { first_walked self.new result earlier.now.passes.items
            ≡ first_walked self.old from earlier.now.passes.items }
    {
        let useful = self.board.classes().useful();
        let place = self.free.first_outside(&earlier.held, from, useful.len());
        if useful.len() <= place {
            return place;
        }
        self.add(place, useful[place]);
        place + 1
    }

    /// Goes through the useful controls in control order. Adds each control that is in no earlier pass and is together
    /// with all controls of the draft. So no earlier pass enables the tested drivers of an added control. The earlier
    /// passes must be passes of the draft's board.
    pub fn first_walk(&mut self, earlier: &Progress)
        requires { IsProgress self.old.board earlier.now }
        ensures { self.new ≡ first_walked self.old 0 earlier.now.passes.items }
    {
        let mut place = 0;
        while place < self.board.classes().useful().len() {
            place = self.add_new(earlier, place);
        }
    }

    /// Finds the first useful control from place `from` on that is together with all controls of the draft. Adds this
    /// control, if there is one. Returns the place to continue with. `from` must be the place of a useful control.
    fn add_next(&mut self, from: usize) -> usize
        requires { from < length (useful_controls self.old.board) }
        ensures board { self.new.board ≡ self.old.board }
        ensures further { from < result }
        ensures step { second_walked self.new result ≡ second_walked self.old from }
    {
        let useful = self.board.classes().useful();
        let place = self.free.first_from(from, useful.len());
        if useful.len() <= place {
            return place;
        }
        self.add(place, useful[place]);
        place + 1
    }

    /// Goes through the useful controls in control order. Adds each control that is together with all controls of the
    /// draft.
    pub fn second_walk(&mut self)
        ensures { self.new ≡ second_walked self.old 0 }
    {
        let mut place = 0;
        while place < self.board.classes().useful().len() {
            place = self.add_next(place);
        }
    }
}
