// The calls that a line may make.
use crate::objects::ActLine;
use crate::primitives::Way;
use crate::text::named;

#[derive(Clone, Copy)]
pub(crate) enum Op {
    Paper,
    Md5,
    Rc4,
    Aes128(Way),
    Aes256(Way),
    Cbc128(Way),
    Cbc256(Way),
    LookUp,
    Open,
    SetUp,
    Restore,
    Protect,
    Run,
    Start,
    On(ActLine),
}

// The word of each call.
const OPS: [(&str, Op); 21] = [
    ("paper", Op::Paper),
    ("md5", Op::Md5),
    ("rc4", Op::Rc4),
    ("aes128enc", Op::Aes128(Way::Encrypt)),
    ("aes128dec", Op::Aes128(Way::Decrypt)),
    ("aes256enc", Op::Aes256(Way::Encrypt)),
    ("aes256dec", Op::Aes256(Way::Decrypt)),
    ("cbc128enc", Op::Cbc128(Way::Encrypt)),
    ("cbc128dec", Op::Cbc128(Way::Decrypt)),
    ("cbc256enc", Op::Cbc256(Way::Encrypt)),
    ("cbc256dec", Op::Cbc256(Way::Decrypt)),
    ("lookup", Op::LookUp),
    ("open", Op::Open),
    ("setup", Op::SetUp),
    ("restore", Op::Restore),
    ("protect", Op::Protect),
    ("run", Op::Run),
    ("start", Op::Start),
    ("feed", Op::On(ActLine::Feed)),
    ("close", Op::On(ActLine::Close)),
    ("ask", Op::On(ActLine::Ask)),
];

// The call that a word names.
pub(crate) fn op_of(word: &[u8]) -> Option<Op> {
    named(&OPS, word)
}
