//! Lines and words, and the words of the texts.

mod address;
mod cut;
mod flags;
mod line;
mod name;
mod number;
mod put;
mod reading;
mod size;
mod value;

pub use address::{
    group_by, group_by_spelled, group_in, group_of, group_spelled, ind_in, ind_of, ind_spelled,
};
pub use cut::{Span, first_line, first_word, next_line, next_word};
pub use flags::{flags_in, flags_of, flags_spelled};
pub use line::{has_plain_lines, is_text, without_comment};
pub use name::{Name, is_name, is_name_in, name_spelled};
pub use number::{number_in, number_of, number_spelled};
pub use put::{
    put_device, put_device_word, put_flags_word, put_group, put_group_word, put_number,
    put_number_word, put_word,
};
pub use reading::{
    LONGEST_TEXT, device_field, group_field, group_field_by, is_word, line_text, next_field,
    no_more, refused_at, words_of_text,
};
pub use size::{bits_of, size_code, size_code_in, size_code_of, size_spelled};
pub use value::{digit_pair, octet_in, value_in, value_of, value_spelled};
