//! Laws of what routers hear and of what views show, each the contract of a function that does nothing.

ghost use Rattle.std.specs.Prelude.{◌≡◌, ℕ, [], ◌∷◌, None, Some};
ghost use Rattle.squall_plan.specs.Ranges.{owner_of};
ghost use Rattle.squall_report.specs.Told.{TellsAll};
ghost use Rattle.squall_board.specs.Boards.{told};
ghost use Rattle.squall_wire.specs.declared.message.Message.{Message};
ghost use Rattle.squall_wire.specs.Messages.{IsMessage, spell};
ghost use Rattle.squall_wire.specs.Hearing.{new_feed};
ghost use Rattle.squall_router.specs.Routers.{RouterValue, course_of_router, route_of_router};
ghost use Rattle.squall_c_values.specs.Values.{place_at, place_of};
ghost use Rattle.squall_c.specs.declared.router.Station.{Station};
ghost use Rattle.squall_c.specs.declared.views.View.{View};
ghost use Rattle.squall_c.specs.Showing.{part_at, legs_by};
ghost use Rattle.squall_c.specs.Limits.{IsAdmitted};
ghost use Rattle.squall_c.specs.Feeding.{HearsPiece, heard_station};
ghost use Rattle.squall_c.specs.Views.{IsSettled, Shows, seen, seen_number, legs_of_view};

/// A whole frame that is within the limit leaves what it leaves if it is fed to a station to which
/// nothing was fed before.
pub fn router_hears_as_if_fed()
    ensures { (s : Station) (m : Message) → IsMessage m → IsAdmitted s (m ∷ []) → s.feed ≡ new_feed
        → HearsPiece s (spell m) None (heard_station s (m ∷ []) s.feed) }
{}

/// A view of a router answers as the router did.
pub fn views_answer_as_their_router()
    ensures routes { (r : RouterValue) (v : View) (rank : ℕ) → Shows r (Some v) → seen (Some v) rank ≡ part_at (route_of_router r) rank }
    ensures legs { (r : RouterValue) (v : View) (lo hi : ℕ) → Shows r (Some v) → legs_of_view (Some v) lo hi ≡ legs_by (route_of_router r) lo hi }
    ensures number { (r : RouterValue) (v : View) → Shows r (Some v) → seen_number (Some v) ≡ (course_of_router r).number }
{}

/// A view gives the places of keys that its router gave. And a settled key stays: a router that took
/// more reports routes the key to the same partition while its course is the same.
pub fn settled_keys_stay()
    ensures places { (r : RouterValue) (v : View) (rank : ℕ) → Shows r (Some v)
        → place_at v.course (owner_of v.table) rank ≡ place_at (course_of_router r) (route_of_router r) rank }
    ensures stays { (r later : RouterValue) (k : ℕ) → TellsAll (told later.board) (told r.board) → course_of_router later ≡ course_of_router r
        → IsSettled (place_of (course_of_router r) (route_of_router r) k) → route_of_router later k ≡ route_of_router r k }
{}
