//! Tests of lines, by a table. Nothing here but tests: the crate that they try is slow to prove.
#![tactic(auto)]

#[cfg(test)]
mod tests {
    use console::input::LineBuffer;
    use jobs::reading::take_words;
    use play_words::faults::PlayFault;
    use std::test::Fail;

    // A line, and its words with a bar behind each.
    const LINES: [(&str, &str); 6] = [
        ("enter 7 buy 100 5", "enter|7|buy|100|5|"),
        ("  cross\t", "cross|"),
        ("a #b", "a|#b|"),
        ("", ""),
        ("   ", ""),
        ("# cross", ""),
    ];

    #[test]
    fn words_are_handed_on(rt: HostRuntime) -> Result<(), Fail> {
        let heap = rt.alloc();
        for (text, words) in LINES {
            let mut line = LineBuffer::new();
            for byte in text.bytes() {
                line.push(byte);
            }
            let mut handed = String::new(heap);
            let taken: Result<(), PlayFault> = take_words(heap, &line, |words| {
                for word in words {
                    handed.push_str(word)?;
                    handed.push('|')?;
                }
                Ok(())
            });
            assert!(rt; taken.is_ok());
            assert_eq!(rt; handed.as_str(), words);
        }
        Ok(())
    }

    // What the closure answers is the answer.
    #[test]
    fn a_refusal_is_handed_back(rt: HostRuntime) {
        let mut line = LineBuffer::new();
        line.push(b'x');
        let refused = take_words(rt.alloc(), &line, |_| Err(PlayFault::Early));
        assert!(rt; refused.is_err());
    }
}
