//! What surrounds a place of the source: the innermost statement, and the loops.

ghost use Rattle.std.specs.Prelude.{◌≡◌, true, Some};
ghost use Rattle.sy_bodies.specs.Places.{place_within};

use sy_found::Place;
use sy_looks::Walk;
use sy_note::Spot;
use sy_rules::{Setting, Standing};

/// The setting in the body of a loop.
pub fn in_a_loop(setting: Setting) -> Setting
    ensures { result ≡ record setting { in_loop = true } }
{
    Setting {
        within: setting.within,
        function: setting.function,
        returned: setting.returned,
        in_loop: true,
        kernel: setting.kernel,
        taken: setting.taken,
    }
}

fn place_here(w: &Walk, s: Spot) -> Option<Place>
    ensures { result ≡ Some (record { within = w.now.names.setting.within; statement = s }) }
{
    Some(Place {
        within: w.names.setting().within,
        statement: s,
    })
}

/// The place in a statement that begins at s.
fn place_within(w: &Walk, own: Standing, s: Spot) -> Option<Place>
    ensures { result ≡ place_within own s w.now }
{
    match own {
        Standing::InHead => w.place,
        Standing::InList => place_here(w, s),
        Standing::AsBody => place_here(w, s),
    }
}

/// Begins a statement, and answers the place that surrounds it.
pub fn begin_statement(w: &mut Walk, own: Standing, s: Spot) -> Option<Place>
    ensures outside { result ≡ w.old.place }
    ensures there { w.new ≡ record w.old { place = place_within own s w.old } }
{
    let outside = w.place;
    w.place = place_within(w, own, s);
    outside
}
