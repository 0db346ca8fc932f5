use crate::{Answer, AnswerMembers, answer_text};
use std::test::Fail;

#[test]
fn writes_what_is_given(rt: HostRuntime) -> Result<(), Fail> {
    let alloc = rt.alloc();
    let bare = AnswerMembers::new(Answer::Fault);
    assert_eq!(rt;
        answer_text(alloc, &bare)?.as_str(),
        "{\"answer\":\"fault\"}"
    );
    let checked = AnswerMembers {
        definitions: Some(12),
        turns: Some(0),
        ..AnswerMembers::new(Answer::Yes)
    };
    let text = answer_text(alloc, &checked)?;
    assert_eq!(rt;
        text.as_str(),
        "{\"answer\":\"yes\",\"definitions\":12,\"turns\":0}"
    );
    Ok(())
}

#[test]
fn writes_all_in_order_of_names(rt: HostRuntime) -> Result<(), Fail> {
    let all = AnswerMembers {
        answer: Answer::No,
        at: Some(18_446_744_073_709_551_615),
        cause: Some("Mismatch"),
        definitions: Some(1),
        face: Some("(i = 0)"),
        found: Some("a \"b\" \\ c"),
        path: Some("dir/\u{e9}.ctt"),
        turns: Some(2),
        type_text: Some("x\n\t\u{1}\u{7f}"),
        wanted: Some(""),
    };
    let text = answer_text(rt.alloc(), &all)?;
    let wanted = "{\"answer\":\"no\",\"at\":18446744073709551615,\"cause\":\"Mismatch\",\
         \"definitions\":1,\"face\":\"(i = 0)\",\"found\":\"a \\\"b\\\" \\\\ c\",\
         \"path\":\"dir/\u{e9}.ctt\",\"turns\":2,\
         \"type\":\"x\\n\\t\\u0001\u{7f}\",\"wanted\":\"\"}";
    assert_eq!(rt; text.as_str(), wanted);
    Ok(())
}
