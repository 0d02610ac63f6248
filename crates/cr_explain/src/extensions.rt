// Words that C11's core hasn't, and what is written in their place.

/// What is written in the place of a word of compilers or headers.
pub fn extension_remedy(word: &str) -> Option<&'static str> {
    Some(match word {
        "asm" | "__asm__" | "__asm" => "take it out, or call a function in its place",
        "__int128" | "__int128_t" | "__uint128_t" => "use two of type unsigned long",
        "typeof" | "__typeof__" | "__typeof" | "__auto_type" => "write the type itself",
        "__attribute__" | "__attribute" | "__extension__" | "__restrict" | "__restrict__" => {
            "creduce-prepare takes it out"
        }
        "__inline" | "__inline__" | "__const" | "__signed__" | "__volatile__" => {
            "creduce-prepare writes the word of C in its place"
        }
        "__thread" | "__label__" | "__complex__" => "take it out: the subset hasn't it",
        "bool"
        | "true"
        | "false"
        | "NULL"
        | "size_t"
        | "ptrdiff_t"
        | "wchar_t"
        | "EOF"
        | "errno"
        | "INT_MAX"
        | "INT_MIN"
        | "UINT_MAX"
        | "LONG_MAX"
        | "CHAR_BIT" => FROM_HEADER,
        "assert" | "EXIT_SUCCESS" | "EXIT_FAILURE" | "RAND_MAX" => FROM_HEADER,
        "va_list" | "va_start" | "va_arg" | "va_end" | "va_copy" | "__builtin_va_list" => {
            "a function of your own has a fixed number of parameters"
        }
        "FILE" | "stdin" | "stdout" | "stderr" => "streams are left out: printf and putchar write",
        "__func__" | "__FUNCTION__" | "__PRETTY_FUNCTION__" => {
            "write the function's name as a string literal"
        }
        "int8_t" | "int16_t" | "int32_t" | "int64_t" | "intptr_t" | "intmax_t" => FROM_HEADER,
        "uint8_t" | "uint16_t" | "uint32_t" | "uint64_t" | "uintptr_t" | "uintmax_t" => {
            FROM_HEADER
        }
        _ => return None,
    })
}

const FROM_HEADER: &str =
    "a header has it: creduce-prepare makes a preprocessed file of the source, with short headers";
