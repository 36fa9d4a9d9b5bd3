// The operations of a line as they are read.
ghost use Rattle.std.specs.Prelude.{◌≡◌, List, [], ◌∷◌, ◌++◌};
ghost use Rattle.xc_record.specs.Hash.{hash_of};
ghost use Rattle.xc_record.specs.declared.record.Op.{Op};
ghost use Rattle.xc_text.specs.Spans.{IsSpan};

use xc_base::RECORD_OPERATIONS;
use xc_record::Ops;

// How many operations there are, counted no further than one past what a record may have, and the least and the
// greatest hash of their keys. Of none the least is above the greatest.
#[derive(Clone, Copy, Debug)]
pub(crate) struct Span {
    pub(crate) count: usize,
    pub(crate) least: u16,
    pub(crate) greatest: u16,
}

impl Span {
    // The span of no operations.
    pub(crate) fn none() -> Span
        ensures { IsSpan result [] }
    {
        Span {
            count: 0,
            least: u16::MAX,
            greatest: 0,
        }
    }

    // With an operation more, whose key has this hash.
    #[inline(always)]
    pub(crate) fn with(self, hash: u16) -> Span
        ensures { (ops : List Op) (op : Op) → IsSpan self ops → (hash ≡ hash_of op.key)
            → IsSpan result (ops ++ op ∷ []) }
    {
        Span {
            count: if self.count <= RECORD_OPERATIONS {
                self.count + 1
            } else {
                self.count
            },
            least: self.least.min(hash),
            greatest: self.greatest.max(hash),
        }
    }
}

// The operations that were read of a line, and their span.
#[derive(Drop, Debug)]
pub(crate) struct LineOps {
    pub(crate) ops: Ops,
    pub(crate) span: Span,
}
