// Functions of C11's library that creduce doesn't know.

/// What is done about a function of the library, where this is one that isn't known.
pub fn library_remedy(name: &str) -> Option<&'static str> {
    if is_prepared(name) {
        Some("define it in the file, as creduce-prepare does")
    } else if is_of_c(name) {
        Some("define it in the file, or take the call out")
    } else {
        None
    }
}

// Those that the headers of creduce-prepare define.
fn is_prepared(name: &str) -> bool {
    matches!(
        name,
        "puts"
            | "getchar"
            | "abs"
            | "labs"
            | "llabs"
            | "rand"
            | "srand"
            | "atoi"
            | "strlen"
            | "strcmp"
            | "strncmp"
            | "strcpy"
            | "strncpy"
            | "strcat"
            | "strchr"
            | "strrchr"
            | "memcpy"
            | "memmove"
            | "memset"
            | "memcmp"
    ) || is_of_characters(name)
}

// Of ctype.h.
fn is_of_characters(name: &str) -> bool {
    matches!(
        name,
        "isalpha"
            | "isdigit"
            | "isalnum"
            | "isspace"
            | "isupper"
            | "islower"
            | "ispunct"
            | "isprint"
            | "iscntrl"
            | "isgraph"
            | "isxdigit"
            | "isblank"
            | "toupper"
            | "tolower"
    )
}

// The others that programs call most.
fn is_of_c(name: &str) -> bool {
    is_of_text(name) || is_of_streams(name) || is_of_memory(name) || is_of_numbers(name)
}

fn is_of_text(name: &str) -> bool {
    matches!(
        name,
        "strncat"
            | "strstr"
            | "strspn"
            | "strcspn"
            | "strpbrk"
            | "strtok"
            | "strerror"
            | "strcoll"
            | "strxfrm"
            | "strdup"
    )
}

fn is_of_streams(name: &str) -> bool {
    matches!(
        name,
        "fputs"
            | "fputc"
            | "putc"
            | "getc"
            | "fgetc"
            | "fgets"
            | "gets"
            | "ungetc"
            | "fprintf"
            | "sprintf"
            | "snprintf"
            | "vprintf"
            | "vfprintf"
            | "vsprintf"
            | "vsnprintf"
            | "scanf"
            | "fscanf"
            | "sscanf"
            | "fopen"
            | "fclose"
            | "fread"
            | "fwrite"
            | "fseek"
            | "ftell"
            | "rewind"
            | "feof"
            | "ferror"
            | "fflush"
            | "freopen"
            | "remove"
            | "rename"
            | "tmpfile"
            | "perror"
            | "setbuf"
            | "setvbuf"
    )
}

fn is_of_memory(name: &str) -> bool {
    matches!(
        name,
        "malloc"
            | "calloc"
            | "realloc"
            | "free"
            | "alloca"
            | "memchr"
            | "qsort"
            | "bsearch"
            | "atexit"
            | "getenv"
            | "system"
            | "signal"
            | "raise"
            | "longjmp"
            | "setjmp"
            | "time"
            | "clock"
            | "difftime"
            | "mktime"
            | "localtime"
            | "gmtime"
            | "strftime"
    )
}

fn is_of_numbers(name: &str) -> bool {
    matches!(
        name,
        "div"
            | "ldiv"
            | "atol"
            | "atoll"
            | "strtol"
            | "strtoul"
            | "strtoll"
            | "strtoull"
            | "atof"
            | "strtod"
            | "sqrt"
            | "pow"
            | "sin"
            | "cos"
            | "tan"
            | "exp"
            | "log"
            | "floor"
            | "ceil"
            | "fabs"
            | "fmod"
            | "ldexp"
            | "frexp"
            | "modf"
    )
}
