//! What a matcher names.

use crate::LMatcher;
use link_graph::Node;

impl Node for LMatcher {
    ghost use Rattle.config_links.specs.SoundConfig.{named_matchers};

    ghost names = { named_matchers };

    fn children(&self) -> &[u32] {
        match self {
            LMatcher::Simple(_) => &[],
            LMatcher::Combo { children, .. } => children.as_slice(),
        }
    }
}
