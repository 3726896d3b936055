/// An exception that the machine itself throws (JVMS 2.10, 6.3, 6.5), by its class in `java.lang`.
#[derive(Clone, Copy, Debug, PartialEq, Eq)]
pub enum Exception {
    AbstractMethodError,
    ArithmeticException,
    ArrayIndexOutOfBoundsException,
    ArrayStoreException,
    ClassCastException,
    IllegalArgumentException,
    IllegalMonitorStateException,
    IllegalThreadStateException,
    IncompatibleClassChangeError,
    InterruptedException,
    NegativeArraySizeException,
    NullPointerException,
    OutOfMemoryError,
    StackOverflowError,
    StringIndexOutOfBoundsException,
    VerifyError,
}
