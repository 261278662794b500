//! What a notice that is due is opened with.
ghost use Rattle.std.specs.Prelude.{◌≡◌, Some, IfSome};
ghost use Rattle.moka_init.specs.Grounds.{access_at, access_from};
ghost use Rattle.moka_init.specs.Openings.{opening_of};
ghost use Rattle.moka_init.specs.PointPlan.{listening_plan};

use crate::flow::Flow;
use crate::points::{Listening, Point};
use moka_hist::Cause;

/// What the visit tells that opens a notice, but the key and the value of the record that left: its
/// stamp, the moment of its write, the cause that was handed in, if one was, and whether a write has
/// taken its place.
#[derive(Clone, Copy)]
pub struct Opening {
    pub stamp: u64,
    pub modified: u64,
    pub cause: Option<Cause>,
    pub upsert: bool,
}

impl<K, V, E> Flow<K, V, E> {
    /// What the call's notice is opened with, where that is due. Nothing is copied for it.
    #[inline(always)]
    pub fn opening(&self) -> Option<Opening>
        ensures { IfSome result (λ opening. opening_of (access_at self.now) ≡ Some opening) }
    {
        match &self.point {
            Point::Listening(listening) => self.listening_opening(listening),
            _ => None,
        }
    }

    fn listening_opening(&self, listening: &Listening<K, V>) -> Option<Opening>
        ensures { IfSome result (λ opening.
            opening_of (access_from self.now (listening_plan listening.now)) ≡ Some opening) }
    {
        match listening {
            Listening::Notice {
                old,
                cause,
                upsert,
                ..
            } => Some(Opening {
                stamp: old.stamp,
                modified: old.modified,
                cause: *cause,
                upsert: *upsert,
            }),
            Listening::Uncopied { old, then, .. } => Some(Opening {
                stamp: old.stamp,
                modified: old.modified,
                cause: None,
                upsert: then.is_upsert(),
            }),
            _ => None,
        }
    }
}
