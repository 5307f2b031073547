//! Tests of the command line, by tables: which words are refused and how, and which job the others ask for. Nothing here but tests.
#![tactic(auto)]

#[cfg(test)]
mod tests {
    use cli::asking::{Job, job_of};
    use play_words::script::MarketKind;
    use runs::running::Format;
    use std::test::Fail;

    // Words with blanks between them, and what is wrong with them.
    const WRONG: [(&str, &str); 29] = [
        ("", "say what to do\nhammerbuff --help tells more"),
        (
            "mend",
            "mend is not known here\nhammerbuff --help tells more",
        ),
        (
            "match --markt book",
            "--markt is not known here\nhammerbuff match --help tells more",
        ),
        (
            "match --market",
            "--market needs a word after it\nhammerbuff match --help tells more",
        ),
        (
            "match --market shop",
            "shop is not known here\nhammerbuff match --help tells more",
        ),
        (
            "match --market book --market call",
            "--market is there twice\nhammerbuff match --help tells more",
        ),
        (
            "page",
            "--sectors N is missing\nhammerbuff page --help tells more",
        ),
        (
            "page --sectors nine",
            "--sectors needs a number\nhammerbuff page --help tells more",
        ),
        (
            "play script --slow",
            "--slow is not known here\nhammerbuff play --help tells more",
        ),
        (
            "drill",
            "the name of a SCRIPT is missing\nhammerbuff drill --help tells more",
        ),
        (
            "drill s --plans",
            "--plans needs a number\nhammerbuff drill --help tells more",
        ),
        (
            "drill s --plans 0",
            "at least one plan is tried at each cut\nhammerbuff drill --help tells more",
        ),
        (
            "drill s t",
            "t is not known here\nhammerbuff drill --help tells more",
        ),
        (
            "setup",
            "the name of a FILE is missing\nhammerbuff setup --help tells more",
        ),
        (
            "setup --house 7 --market book --sectors 9",
            "the name of a FILE is missing\nhammerbuff setup --help tells more",
        ),
        (
            "setup f --market book --sectors 9",
            "--house H is missing\nhammerbuff setup --help tells more",
        ),
        (
            "setup f --house 7 --sectors 9",
            "--market book|call is missing\nhammerbuff setup --help tells more",
        ),
        (
            "setup f --house 7 --market book",
            "--sectors N is missing\nhammerbuff setup --help tells more",
        ),
        (
            "setup f --house 7 --market book --sectors",
            "--sectors needs a word after it\nhammerbuff setup --help tells more",
        ),
        (
            "setup f --house 7 --market book --sectors 9 --house 8",
            "--house is there twice\nhammerbuff setup --help tells more",
        ),
        (
            "setup f --force --house 7 --market book --sectors 9 --force",
            "--force is there twice\nhammerbuff setup --help tells more",
        ),
        (
            "setup f --house -7 --market book --sectors 9",
            "--house needs a number\nhammerbuff setup --help tells more",
        ),
        (
            "setup f g --house 7 --market book --sectors 9",
            "g is not known here\nhammerbuff setup --help tells more",
        ),
        (
            "run",
            "the name of a FILE is missing\nhammerbuff run --help tells more",
        ),
        (
            "run f --house 7",
            "--market book|call is missing\nhammerbuff run --help tells more",
        ),
        (
            "run f --house 7 --market book --format json",
            "json is not known here\nhammerbuff run --help tells more",
        ),
        (
            "run f --house 7 --market book --sectors 9",
            "--sectors is not known here\nhammerbuff run --help tells more",
        ),
        (
            "show",
            "the name of a FILE is missing\nhammerbuff show --help tells more",
        ),
        (
            "show f g",
            "g is not known here\nhammerbuff show --help tells more",
        ),
    ];

    #[test]
    fn wrong_words_are_told(rt: HostRuntime) -> Result<(), Fail> {
        let heap = rt.alloc();
        for (line, wanted) in WRONG {
            let words: Vec<&str> = line.split_whitespace().collect(heap)?;
            let told = match job_of(heap, &words) {
                Ok(_) => String::new(heap),
                Err(fault) => format!(in heap; "{fault}")?,
            };
            assert_eq!(rt; told.as_str(), wanted);
        }
        Ok(())
    }

    // The options of a set-up in two orders.
    const SETTINGS: [&str; 2] = [
        "setup f --house 7 --market call --sectors 9 --mirror g --force",
        "setup f --force --mirror g --sectors 9 --market call --house 7",
    ];

    // The options of a run in two orders.
    const RUNS: [&str; 2] = [
        "run f --house 7 --market book --mirror g --format csv",
        "run f --format csv --mirror g --market book --house 7",
    ];

    #[test]
    fn a_run_is_asked_for(rt: HostRuntime) -> Result<(), Fail> {
        for line in RUNS {
            let words: Vec<&str> = line.split_whitespace().collect(rt.alloc())?;
            let Ok(Job::Run(run)) = job_of(rt.alloc(), &words) else {
                return Err(Fail::new("another job is asked for"));
            };
            assert_eq!(rt; run.file, "f");
            assert_eq!(rt; run.mirror, Some("g"));
            assert_eq!(rt; run.house.0, 7);
            assert!(rt; matches!(&run.market, MarketKind::Book));
            assert!(rt; matches!(&run.format, Format::Csv));
        }
        Ok(())
    }

    #[test]
    fn a_set_up_is_asked_for(rt: HostRuntime) -> Result<(), Fail> {
        for line in SETTINGS {
            let words: Vec<&str> = line.split_whitespace().collect(rt.alloc())?;
            let Ok(Job::SetUp(setting)) = job_of(rt.alloc(), &words) else {
                return Err(Fail::new("another job is asked for"));
            };
            assert_eq!(rt; setting.file, "f");
            assert_eq!(rt; setting.mirror, Some("g"));
            assert_eq!(rt; setting.house.0, 7);
            assert!(rt; matches!(&setting.market, MarketKind::Call));
            assert_eq!(rt; setting.sectors, 9);
            assert!(rt; setting.force);
        }
        Ok(())
    }

    // Words that ask for help, and the command that they ask about.
    const HELPS: [(&str, &str); 4] = [
        ("--help", ""),
        ("setup --help", "setup"),
        ("show f --help", "show"),
        ("drill --help --plans", "drill"),
    ];

    #[test]
    fn help_is_asked_for(rt: HostRuntime) -> Result<(), Fail> {
        for (line, wanted) in HELPS {
            let words: Vec<&str> = line.split_whitespace().collect(rt.alloc())?;
            let Ok(Job::Help(command)) = job_of(rt.alloc(), &words) else {
                return Err(Fail::new("another job is asked for"));
            };
            let name = match command {
                Some(command) => command.name(),
                None => "",
            };
            assert_eq!(rt; name, wanted);
        }
        Ok(())
    }

    #[test]
    fn other_jobs_are_asked_for(rt: HostRuntime) -> Result<(), Fail> {
        let heap = rt.alloc();
        let page = job_of(heap, &["page", "--sectors", "12"]);
        assert!(rt;
            matches!(
                &page,
                Ok(Job::Page {
                    sectors: 12,
                    file: None
                })
            )
        );
        let market = job_of(heap, &["match"]);
        assert!(rt;
            matches!(
                &market,
                Ok(Job::Match {
                    market: MarketKind::Book,
                    file: None
                })
            )
        );
        let day = job_of(heap, &["match", "day", "--market", "call"]);
        assert!(rt;
            matches!(
                &day,
                Ok(Job::Match {
                    market: MarketKind::Call,
                    file: Some("day")
                })
            )
        );
        let show = job_of(heap, &["show", "f"]);
        assert!(rt; matches!(&show, Ok(Job::Show { file: "f" })));
        Ok(())
    }
}
