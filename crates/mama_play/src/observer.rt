ghost use Rattle.std.specs.Prelude.{◌≡◌, map};

use mama_board::ImageReader;
use std::thread::Threads;

/// Reads images while a script is played.
pub trait Observer {
    /// Reads images by the readers of the queues, in the order of the queues. It is called once if the crew could be opened, on a
    /// thread beside those that play, or, where none can be made, on the calling thread at the end. The play is closed once it has
    /// returned.
    ///
    /// Nothing tells it that the play is over, so it has to count its looks. Where the play found no memory, each look is refused.
    ///
    /// It leaves in each place the reader that it found there, or one of the same board; the clause asks for the same queue alone.
    /// With a reader of another play the last images may not be found, and the play answers want of memory.
    fn look<Rt: Threads + Copy>(&self, rt: Rt, readers: &mut [ImageReader])
        ensures { map (λ r. r.queue) readers.new ≡ map (λ r. r.queue) readers.old };
}

/// Reads no image, and returns at once.
#[derive(Clone, Copy)]
pub struct NoObserver;

impl Observer for NoObserver {
    fn look<Rt: Threads + Copy>(&self, _rt: Rt, _readers: &mut [ImageReader]) {}
}
