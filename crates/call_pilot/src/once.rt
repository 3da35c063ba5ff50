//! That the words and the files of a call of `pilot` fix its answer. It has no code that a program
//! calls: each law is the contract of a function with an empty body.

mod fixed_answer;
mod one_answer;

pub use fixed_answer::words_and_files_fix_the_answer;
pub use one_answer::{
    each_bench_has_one_answer, each_check_has_one_answer, each_margin_has_one_answer,
    each_match_has_one_answer, each_recheck_has_one_answer, each_report_has_one_answer,
    each_split_has_one_answer, each_text_is_a_certificate_or_leaves_the_grammar,
};
