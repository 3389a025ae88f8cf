// The words of the program's command line.
use command_line::{Args, ArgsFault};
use std::test::Fail;

const WORDS: [&str; 8] = [
    "blockd", "--config", "a", "--image", "b", "--script", "c", "--trace",
];

#[test]
fn words_name_three_files_and_a_flag(rt: HostRuntime) -> Result<(), Fail> {
    let Ok(args) = Args::read(rt.alloc(), &WORDS) else {
        return Err(Fail::from("the words are refused"));
    };
    assert_eq!(rt;
        (
            args.config.as_str(),
            args.image.as_str(),
            args.script.as_str(),
            args.trace,
        ),
        ("a", "b", "c", true)
    );
    Ok(())
}

#[test]
fn a_file_is_missing(rt: HostRuntime) -> Result<(), Fail> {
    let read = Args::read(rt.alloc(), &WORDS[..5]);
    assert!(rt; matches!(read, Err(ArgsFault::Refused)));
    Ok(())
}
