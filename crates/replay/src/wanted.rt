// The answer that is wanted, read beside the one that came.
use crossing::{
    Bytes16, CAnswer, CBlock, CBlockAnswer, CChain, CCiphered, CControl, CHead, CKeysAnswer,
    CParsed, CSealed, CStepped, CSteppedBlock, CUnsealed,
};

#[derive(Clone, Copy)]
pub(crate) struct Wanted<'a> {
    rest: &'a [u8],
}

impl<'a> Wanted<'a> {
    pub(crate) fn new(rest: &'a [u8]) -> Self {
        Wanted { rest }
    }

    // What is wanted behind this, if this comes next.
    pub(crate) fn then<A: Answer>(self, answer: A) -> Option<Wanted<'a>> {
        answer.stripped(self)
    }

    // Whether this, and no more, is wanted.
    pub(crate) fn is<A: Answer>(self, answer: A) -> bool {
        self.then(answer)
            .is_some_and(|wanted| wanted.rest.is_empty())
    }
}

// What a call answers, as the cases store it: the fields in their order, the low byte of a number first.
pub(crate) trait Answer: Drop {
    // What is wanted behind the answer, if it comes first.
    fn stripped<'a>(self, wanted: Wanted<'a>) -> Option<Wanted<'a>>;
}

impl Answer for &[u8] {
    fn stripped<'a>(self, wanted: Wanted<'a>) -> Option<Wanted<'a>> {
        wanted.rest.strip_prefix(self).map(Wanted::new)
    }
}

impl<const N: usize> Answer for [u8; N] {
    fn stripped<'a>(self, wanted: Wanted<'a>) -> Option<Wanted<'a>> {
        wanted.then(&self[..])
    }
}

impl Answer for u8 {
    fn stripped<'a>(self, wanted: Wanted<'a>) -> Option<Wanted<'a>> {
        wanted.then([self])
    }
}

impl Answer for bool {
    fn stripped<'a>(self, wanted: Wanted<'a>) -> Option<Wanted<'a>> {
        wanted.then(u8::from(self))
    }
}

impl Answer for u16 {
    fn stripped<'a>(self, wanted: Wanted<'a>) -> Option<Wanted<'a>> {
        wanted.then(self.to_le_bytes())
    }
}

impl Answer for usize {
    fn stripped<'a>(self, wanted: Wanted<'a>) -> Option<Wanted<'a>> {
        wanted.then(self.to_le_bytes())
    }
}

impl Answer for Bytes16 {
    fn stripped<'a>(self, wanted: Wanted<'a>) -> Option<Wanted<'a>> {
        wanted.then(self.bytes)
    }
}

impl Answer for CAnswer {
    fn stripped<'a>(self, wanted: Wanted<'a>) -> Option<Wanted<'a>> {
        wanted.then(self.refusal)?.then(self.a)?.then(self.b)
    }
}

impl Answer for CControl {
    fn stripped<'a>(self, wanted: Wanted<'a>) -> Option<Wanted<'a>> {
        wanted
            .then(self.answer)?
            .then(self.sqn)?
            .then(self.crc)?
            .then(self.block)
    }
}

impl Answer for CBlock {
    fn stripped<'a>(self, wanted: Wanted<'a>) -> Option<Wanted<'a>> {
        wanted.then(self.answer)?.then(self.ty)?.then(self.data_len)
    }
}

impl Answer for CHead {
    fn stripped<'a>(self, wanted: Wanted<'a>) -> Option<Wanted<'a>> {
        wanted
            .then(self.answer)?
            .then(self.addr)?
            .then(self.len)?
            .then(self.sqn)?
            .then(self.crc)?
            .then(self.block)
    }
}

impl Answer for CParsed {
    fn stripped<'a>(self, wanted: Wanted<'a>) -> Option<Wanted<'a>> {
        wanted
            .then(self.answer)?
            .then(self.addr)?
            .then(self.sqn)?
            .then(self.crc)?
            .then(self.block)?
            .then(self.block_type)?
            .then(self.block_start)?
            .then(self.block_len)?
            .then(self.code)?
            .then(self.data_start)?
            .then(self.data_len)?
            .then(self.mac_start)?
            .then(self.trailer_is_crc)?
            .then(self.trailer)?
            .then(self.len)
    }
}

impl Answer for CCiphered {
    fn stripped<'a>(self, wanted: Wanted<'a>) -> Option<Wanted<'a>> {
        wanted.then(self.answer)?.then(self.calls)
    }
}

impl Answer for CChain {
    fn stripped<'a>(self, wanted: Wanted<'a>) -> Option<Wanted<'a>> {
        wanted.then(self.full)?.then(self.calls)
    }
}

impl Answer for CBlockAnswer {
    fn stripped<'a>(self, wanted: Wanted<'a>) -> Option<Wanted<'a>> {
        wanted.then(self.answer)?.then(self.block)
    }
}

impl Answer for CKeysAnswer {
    fn stripped<'a>(self, wanted: Wanted<'a>) -> Option<Wanted<'a>> {
        wanted.then(self.answer)?.then(self.keys)
    }
}

impl Answer for CStepped {
    fn stripped<'a>(self, wanted: Wanted<'a>) -> Option<Wanted<'a>> {
        wanted.then(self.answer)?.then(self.session)
    }
}

impl Answer for CSteppedBlock {
    fn stripped<'a>(self, wanted: Wanted<'a>) -> Option<Wanted<'a>> {
        wanted
            .then(self.answer)?
            .then(self.block)?
            .then(self.session)
    }
}

impl Answer for CSealed {
    fn stripped<'a>(self, wanted: Wanted<'a>) -> Option<Wanted<'a>> {
        wanted
            .then(self.answer)?
            .then(self.calls)?
            .then(self.session)
    }
}

impl Answer for CUnsealed {
    fn stripped<'a>(self, wanted: Wanted<'a>) -> Option<Wanted<'a>> {
        wanted
            .then(self.answer)?
            .then(self.in_work)?
            .then(self.start)?
            .then(self.len)?
            .then(self.calls)?
            .then(self.session)
    }
}
