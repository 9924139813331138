//! The input of the program.
ghost use Rattle.statsd_run.specs.Inputs.{input_state};

use sd_io::{BufferedSource, ReadFailed, Source, StdSource};
use std::io::Read;

/// The input: read ahead, so that a frame costs no call of the system, or as it came where nothing is read of it. It is
/// one type for both, so that the engine is compiled once.
#[derive(Drop)]
pub enum Input<R> {
    AsItCame(StdSource<R>),
    ReadAhead(BufferedSource<R>),
}

impl<R: Read> Source for Input<R> {
    ghost state = { input_state R.remaining };

    fn read(&mut self, buf: &mut [u8]) -> Result<usize, ReadFailed> {
        match self {
            Input::AsItCame(source) => source.read(buf),
            Input::ReadAhead(source) => source.read(buf),
        }
    }

    fn held(&self) -> &[u8] {
        match self {
            Input::AsItCame(source) => source.held(),
            Input::ReadAhead(source) => source.held(),
        }
    }

    fn skip(&mut self, count: usize) -> bool {
        match self {
            Input::AsItCame(source) => source.skip(count),
            Input::ReadAhead(source) => source.skip(count),
        }
    }
}
