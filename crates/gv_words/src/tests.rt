use crate::{Task, WordsRefused, task_of};
use std::test::Fail;

#[test]
fn words_name_a_task(rt: HostRuntime) -> Result<(), Fail> {
    let alloc = rt.alloc();
    for (words, task) in [
        (["run"].as_slice(), Ok(Task::Run)),
        (["gen", "0"].as_slice(), Ok(Task::Gen(0))),
        (["gen", "1"].as_slice(), Ok(Task::Gen(1))),
        (
            ["gen", "4294967295"].as_slice(),
            Ok(Task::Gen(4_294_967_295)),
        ),
        ([].as_slice(), Err(WordsRefused::BadWords)),
        (["run", "x"].as_slice(), Err(WordsRefused::BadWords)),
        (["walk"].as_slice(), Err(WordsRefused::BadWords)),
        (["gen"].as_slice(), Err(WordsRefused::BadWords)),
        (
            ["gen", "4294967296"].as_slice(),
            Err(WordsRefused::BadWords),
        ),
        (["gen", "1", "2"].as_slice(), Err(WordsRefused::BadWords)),
        (["gen", "-1"].as_slice(), Err(WordsRefused::BadWords)),
        (["gen", "1f"].as_slice(), Err(WordsRefused::BadWords)),
        (["help"].as_slice(), Err(WordsRefused::BadWords)),
        (["--help"].as_slice(), Err(WordsRefused::BadWords)),
        (["gen", "--help"].as_slice(), Err(WordsRefused::BadWords)),
        (["-V"].as_slice(), Err(WordsRefused::BadWords)),
    ] {
        assert_eq!(rt; task_of(alloc, words), task);
    }
    Ok(())
}
