// What no contract says: the lines that are printed of three texts, and that what shows the texts of files is called with them.
use crate::check::{Texts, print_check};
use crate::filled::Filled;
use crate::list::NO_LIST;
use crate::program::{show_files, show_named};
use crate::run::print_run;
use event::Answer;
use std::cell::{Cell, RefCell};
use std::fmt::{Display, Write};
use std::test::Fail;
use std::{fs, io};

// What is printed, held in its order.
#[derive(Drop)]
struct Page {
    said: RefCell<Filled<256>>,
}

impl Page {
    fn new() -> Self {
        Page {
            said: RefCell::new(Filled::new()),
        }
    }

    fn put(&self, bytes: &[u8]) {
        if let Ok(mut said) = self.said.try_borrow_mut() {
            said.push(bytes);
        }
    }

    fn says(&self, text: &str) -> bool {
        match self.said.try_borrow() {
            Ok(said) => said.as_slice() == text.as_bytes(),
            Err(_) => false,
        }
    }
}

impl Print for Page {
    fn print<D: Display + Drop>(&self, value: D) -> io::Result<()> {
        let mut text: Filled<256> = Filled::new();
        let _ = write!(text, "{value}");
        self.put(text.as_slice());
        Ok(())
    }

    fn println<D: Display + Drop>(&self, value: D) -> io::Result<()> {
        self.print(value)?;
        self.put(b"\n");
        Ok(())
    }

    fn write_all(&self, bytes: &[u8]) -> io::Result<()> {
        self.put(bytes);
        Ok(())
    }
}

// Three stores, of which the target has two, the other way round; and what became of each.
const SOURCE: &str = "trace\t1\nstore\t10\t3\nstore\t10\t4\nstore\t11\t5\n";

const TARGET: &str = "trace\t1\nstore\t11\t5\nstore\t10\t4\n";

const MATCHING: &str = "match\t1\ngone\nkeep\t2\nkeep\t1\n";

fn texts(target: &'static str) -> Texts<'static> {
    Texts {
        source: SOURCE.as_bytes(),
        target: target.as_bytes(),
        matching: MATCHING.as_bytes(),
    }
}

#[test]
fn a_check_is_printed(rt: HostRuntime) {
    let accepted = Page::new();
    print_check(&accepted, &NO_LIST, texts(TARGET));
    assert!(rt; accepted.says("accepted\t0\t0\t0\n"));
    let refused = Page::new();
    print_check(&refused, &NO_LIST, texts("trace\t1\nstory\n"));
    assert!(rt; refused.says("refused\t2\t2\t2\nstory\n"));
}

#[test]
fn a_run_is_printed(rt: HostRuntime) {
    let page = Page::new();
    print_run(&page, &NO_LIST, texts(TARGET));
    assert!(rt; page.says("accepted\t0\t0\t0\nsteps\t2\nremove\t1\t1\tstore\t10\t3\nswap\t1\n"));
}

#[test]
fn texts_of_files_are_shown(rt: HostRuntime) -> Result<(), Fail> {
    let files = [
        ("source", SOURCE),
        ("target", TARGET),
        ("matching", MATCHING),
    ];
    for (name, text) in files {
        fs::write(&rt, name, text)?;
    }
    let names: [&[u8]; 3] = [b"source", b"target", b"matching"];
    let page = Page::new();
    show_files(&rt, Ok(NO_LIST), names, |listed, texts| {
        print_check(&page, listed, texts);
    });
    for (name, _) in files {
        fs::remove_file(&rt, name)?;
    }
    assert!(rt; page.says("accepted\t0\t0\t0\n"));
    let shown = Cell::new(false);
    show_files(
        &rt,
        Err(Answer::new(1, 4, 0)),
        names,
        |_, _| shown.set(true),
    );
    assert!(rt; !shown.get());
    Ok(())
}

#[test]
fn texts_of_words_are_shown(rt: HostRuntime) {
    let page = Page::new();
    let empty = Cell::new(false);
    show_named(&rt, &page, b"usage\n", |_, texts| {
        let none = texts.target.is_empty() && texts.matching.is_empty();
        empty.set(texts.source.is_empty() && none);
    });
    assert!(rt; page.says("usage\n"));
    assert!(rt; empty.get());
}
