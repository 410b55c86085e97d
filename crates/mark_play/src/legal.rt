//! Which masks are legal.

ghost use Rattle.std.specs.Prelude.{◌≡◌, ◌<◌, length};
ghost use Rattle.apcu_model.specs.declared.limits.TheConstants.{MOST_WORKERS};
ghost use Rattle.mark_play.specs.Legal.{may_meet, is_legal_by};

use crate::answering::Window;
use apcu_model::MOST_WORKERS;

// Whether the mask of a worker's event may name the worker `v`, which has this window.
fn may_meet(workers: u32, worker: u32, mask: u64, v: u32, window: &Option<Window>) -> bool
    requires { v < MOST_WORKERS }
    ensures { result ≡ may_meet workers worker mask v window.now }
{
    mask >> v & 1 != 1 || (v != worker && v < workers && window.is_some())
}

// Whether a mask is legal for an event of a worker, if the workers have these windows.
pub(crate) fn is_legal(windows: &[Option<Window>], workers: u32, worker: u32, mask: u64) -> bool
    requires { length windows.now ≡ MOST_WORKERS }
    ensures { result ≡ is_legal_by windows.now workers worker mask }
{
    for v in 0..MOST_WORKERS {
        if !may_meet(workers, worker, mask, v, &windows[v as usize]) {
            return false;
        }
    }
    true
}
