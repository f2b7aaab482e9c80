//! The files that a run writes.
use crate::tests::command_line::DEFAULTS;
use crate::tests::stage::Stage;
use chr_command_line::RunOptions;
use chr_commands::run::run;
use chr_commands::{Detail, Status};
use chr_run_text::Show;
use std::fs::{self, Permissions};
use std::io;
use std::os::unix::fs::{PermissionsExt, symlink};
use std::test::*;

/// The log and the store of the run of `a` by a rule that makes `b` of it.
const LOG: &str = "chr-log 2\nP 1 a\nA 1 1\nF 1 1 \\1\nA 2 2\nD 2\n";

const STORE: &str = "#2 b\n";

/// Makes a folder with the rules, the posts, a folder, and a file with links to it.
fn prepare(rt: &HostRuntime) -> io::Result<()> {
    for path in [
        "old.txt",
        "hard.txt",
        "soft.txt",
        "dangling.txt",
        "there.txt",
        "loop.txt",
    ] {
        let _ = fs::remove_file(rt, path);
    }
    let _ = fs::create_dir(rt, "folder");
    fs::write(rt, "rules.chr", b"a <=> b.".as_slice())?;
    fs::write(rt, "posts.txt", b"a.".as_slice())?;
    fs::write(rt, "old.txt", b"old\n".as_slice())?;
    fs::hard_link(rt, "old.txt", "hard.txt")?;
    symlink(rt, "old.txt", "soft.txt")?;
    symlink(rt, "folder/../there.txt", "dangling.txt")?;
    symlink(rt, "loop.txt", "loop.txt")
}

/// Runs the rules on the posts, with these files for the log and the store.
fn run_with(stage: &Stage<'_>, log: &str, store: &str) -> Status {
    let options = RunOptions {
        show: Show::Store,
        log: Some(log),
        store: Some(store),
        ..DEFAULTS
    };
    run(stage, Detail::Line, "rules.chr", "posts.txt", &[], options)
}

/// Whether a file has this text.
fn holds(rt: &HostRuntime, path: &str, text: &str) -> bool {
    match fs::read(rt, path) {
        Ok(bytes) => bytes.as_slice() == text.as_bytes(),
        Err(_) => false,
    }
}

/// Whether nothing is left beside the files that are written.
fn is_clean(rt: &HostRuntime) -> bool {
    !fs::exists(rt, ".chr-0").unwrap_or(true) && !fs::exists(rt, "folder/.chr-0").unwrap_or(true)
}

/// Paths of the log and the store that lead to one file.
static ONE_FILE: [(&str, &str); 8] = [
    ("new.txt", "./new.txt"),
    ("new.txt", "folder/../new.txt"),
    ("old.txt", "./old.txt"),
    ("old.txt", "hard.txt"),
    ("soft.txt", "old.txt"),
    ("soft.txt", "folder/../hard.txt"),
    ("dangling.txt", "there.txt"),
    ("./there.txt", "dangling.txt"),
];

#[test]
fn two_paths_of_one_file(rt: HostRuntime) -> Result<(), Fail> {
    prepare(&rt)?;
    for (log, store) in ONE_FILE {
        let stage = Stage::new(&rt, b"");
        let status = run_with(&stage, log, store);
        let said = format!(in rt.alloc();
            "chr: {log} and {store} are one file: `--log` and `--store` need two\n"
        )?;
        assert!(rt; status == Status::Usage, "{log} {store}");
        assert!(rt;
            stage.has_said(said.as_str()) && stage.has_printed(""),
            "{log} {store}"
        );
        assert!(rt; holds(&rt, "old.txt", "old\n"), "{log} {store}");
        assert!(rt; !fs::exists(&rt, "there.txt")? && !fs::exists(&rt, "new.txt")?);
    }
    Ok(())
}

/// Paths of the log and the store of which one can't be written, and what is said.
static UNWRITTEN: [(&str, &str, &str); 5] = [
    (
        "old.txt",
        "folder",
        "chr: folder: Is a directory (os error 21)\n",
    ),
    (
        "folder",
        "old.txt",
        "chr: folder: Is a directory (os error 21)\n",
    ),
    (
        "old.txt",
        "no-folder/store.txt",
        "chr: no-folder/store.txt: No such file or directory (os error 2)\n",
    ),
    (
        "folder/new.txt",
        "old.txt/store.txt",
        "chr: old.txt/store.txt: Not a directory (os error 20)\n",
    ),
    (
        "old.txt",
        "loop.txt",
        "chr: loop.txt: Too many levels of symbolic links (os error 40)\n",
    ),
];

#[test]
fn one_file_that_cannot_be_written(rt: HostRuntime) -> Result<(), Fail> {
    prepare(&rt)?;
    for (log, store, said) in UNWRITTEN {
        let stage = Stage::new(&rt, b"");
        let status = run_with(&stage, log, store);
        assert!(rt; status == Status::Usage, "{log} {store}");
        assert!(rt;
            stage.has_said(said) && stage.has_printed(""),
            "{log} {store}"
        );
        assert!(rt;
            holds(&rt, "old.txt", "old\n") && is_clean(&rt),
            "{log} {store}"
        );
        assert!(rt; !fs::exists(&rt, "folder/new.txt")?, "{log} {store}");
    }
    Ok(())
}

#[test]
fn a_file_that_cannot_be_put(rt: HostRuntime) -> Result<(), Fail> {
    prepare(&rt)?;
    let _ = fs::remove_file(&rt, "second.txt");
    for renamings in 0..2 {
        for (log, store) in [("old.txt", "second.txt"), ("second.txt", "old.txt")] {
            let stage = Stage::with_renamings(&rt, renamings);
            assert!(rt;
                run_with(&stage, log, store) == Status::Usage,
                "{log} {renamings}"
            );
            assert!(rt; stage.has_printed(""), "{log} {renamings}");
            assert!(rt;
                holds(&rt, "old.txt", "old\n") && is_clean(&rt),
                "{log} {renamings}"
            );
            assert!(rt; !fs::exists(&rt, "second.txt")?, "{log} {renamings}");
        }
    }
    Ok(())
}

#[test]
fn files_that_are_written(rt: HostRuntime) -> Result<(), Fail> {
    prepare(&rt)?;
    fs::set_permissions(&rt, "old.txt", Permissions::from_mode(0o640))?;
    let stage = Stage::new(&rt, b"");
    assert!(rt; run_with(&stage, "soft.txt", "dangling.txt") == Status::Done);
    assert!(rt; stage.has_printed(STORE) && stage.has_said(""));
    assert!(rt; holds(&rt, "old.txt", LOG) && holds(&rt, "there.txt", STORE));
    assert!(rt; fs::symlink_metadata(&rt, "soft.txt")?.is_symlink());
    assert!(rt; fs::symlink_metadata(&rt, "dangling.txt")?.is_symlink());
    assert!(rt; fs::metadata(&rt, "old.txt")?.permissions().mode() & 0o777 == 0o640);
    assert!(rt; is_clean(&rt));
    let devices = Stage::new(&rt, b"");
    assert!(rt; run_with(&devices, "/dev/null", "/dev/null") == Status::Done);
    assert!(rt; devices.has_printed(STORE));
    Ok(())
}

#[test]
fn standard_output_that_is_full(rt: HostRuntime) -> Result<(), Fail> {
    prepare(&rt)?;
    let stage = Stage::with_room(&rt, 4);
    assert!(rt; run_with(&stage, "old.txt", "there.txt") == Status::Usage);
    assert!(rt; stage.has_said("chr: standard output: no storage space\n"));
    assert!(rt; holds(&rt, "old.txt", LOG) && holds(&rt, "there.txt", STORE));
    Ok(())
}

#[test]
fn an_open_run_with_files(rt: HostRuntime) -> Result<(), Fail> {
    prepare(&rt)?;
    for (log, store) in [(Some("old.txt"), None), (None, Some("there.txt"))] {
        let options = RunOptions {
            labels: 1,
            log,
            store,
            ..DEFAULTS
        };
        let stage = Stage::new(&rt, b"");
        let status = run(&stage, Detail::Line, "rules.chr", "posts.txt", &[], options);
        assert!(rt; status == Status::Open);
    }
    Ok(())
}
