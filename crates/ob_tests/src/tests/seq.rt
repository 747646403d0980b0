//! The buffer of one thread.

use ob_players::run::Single;
use ob_players::story::play_each;
use ob_seq::Buffer;
use ob_stories::{LOOKS, RUN};
use std::test::Fail;

#[test]
fn runs_of_a_buffer(rt: HostRuntime) -> Result<(), Fail> {
    play_each::<Single<Buffer>>(rt.alloc(), RUN)
}

#[test]
fn looks_at_a_buffer(rt: HostRuntime) -> Result<(), Fail> {
    play_each::<Single<Buffer>>(rt.alloc(), LOOKS)
}
