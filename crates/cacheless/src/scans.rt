// Which scans a backend lacks.

ghost use Rattle.std.specs.Prelude.{◌≡◌, not, is_some};
ghost use Rattle.std.specs.List.{find};
ghost use Rattle.base_types.specs.Scans.{build_scans};
ghost use Rattle.cacheless.specs.Suspects.{lacks};
ghost use Rattle.local_caches.specs.Caches.{kept_of};
ghost use Rattle.local_caches.specs.Kept.{is_kept};

use crate::Opening;
use local_caches::LocalCaches;

/// Whether a descriptor lacks a scan.
pub fn lacks_scan(caches: &LocalCaches, o: &Opening) -> bool
    ensures { result ≡ lacks (is_kept (kept_of caches.now)) o.now }
{
    caches.first_missing(o.kind, o.rel).is_some()
}

// The first of these descriptors that lacks one.
pub(crate) fn first_lacking(caches: &LocalCaches, opened: &[Opening]) -> Option<Opening>
    ensures { result ≡ find (λ o. is_some (find (λ scan. not (is_kept (kept_of caches.now) scan)) (build_scans o.kind o.rel))) opened.now }
{
    opened.iter().find(|o| lacks_scan(caches, o)).copied()
}
