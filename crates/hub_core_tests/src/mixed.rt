//! Sessions of many clients, in which each client is answered as it is alone.
use super::session::{Size, Step, session};
use super::tried::Tried;
use matcher_eval::FieldJudge;
use std::alloc::{AllocError, Global};
use test_tools::{Row, Tester};

/// The frames of a session that a client is answered in: its own alone, or all.
#[derive(Clone, Copy)]
struct View<'a> {
    steps: &'a [Step],
    client: u64,
    is_alone: bool,
}

/// Compares the replies to each client of a session with those to the client alone.
pub fn compare_mixed(
    alloc: Global,
    tester: &mut Tester,
    row: &Row<'_>,
    text: &str,
) -> Result<(), AllocError> {
    let Some(size) = Size::of(text) else {
        return tester.differs("no numbers", text);
    };
    let Some(steps) = session(alloc, tester, row, size)? else {
        return Ok(());
    };
    compare_clients(alloc, tester, steps.as_slice(), size.clients)
}

fn compare_clients(
    alloc: Global,
    tester: &mut Tester,
    steps: &[Step],
    clients: u64,
) -> Result<(), AllocError> {
    for client in 1..=clients {
        compare_client(alloc, tester, steps, client)?;
    }
    Ok(())
}

fn compare_client(
    alloc: Global,
    tester: &mut Tester,
    steps: &[Step],
    client: u64,
) -> Result<(), AllocError> {
    let all = View {
        steps,
        client,
        is_alone: false,
    };
    tester.case();
    let among_all = replies_in(alloc, all)?;
    let alone = replies_in(
        alloc,
        View {
            is_alone: true,
            ..all
        },
    )?;
    tester.same_bytes("replies", alone.as_slice(), among_all.as_slice())
}

/// The replies to a client, of a hub that takes these frames.
fn replies_in(alloc: Global, view: View<'_>) -> Result<Vec<u8>, AllocError> {
    let mut tried = Tried::new(alloc, FieldJudge::new())?;
    replies_of(alloc, &mut tried, view)
}

fn replies_of(
    alloc: Global,
    tried: &mut Tried<FieldJudge>,
    view: View<'_>,
) -> Result<Vec<u8>, AllocError> {
    let mut replies = Vec::new(alloc);
    push_replies(alloc, tried, view, &mut replies)?;
    Ok(replies)
}

fn push_replies(
    alloc: Global,
    tried: &mut Tried<FieldJudge>,
    view: View<'_>,
    replies: &mut Vec<u8>,
) -> Result<(), AllocError> {
    for step in view.steps {
        let is_own = step.is_of(view.client);
        if is_own || !view.is_alone {
            tried.take_anew(alloc, &step.bytes)?;
        }
        if is_own {
            replies.extend_from_slice(tried.new_replies())?;
        }
    }
    Ok(())
}
